//! The commands, and what is wrong with words that are none.

use command_words::WordList;
use std::{fmt, io};
use text_tokens::number;

/// A command: its name, the words behind it, what it does, and an example.
struct Usage {
    name: &'static str,
    values: &'static str,
    does: &'static str,
    example: &'static str,
}

const COMMANDS: [Usage; 14] = [
    Usage {
        name: "station",
        values: "PLAN",
        does: "serves the posts of the plan in the file PLAN, and writes the file v2g.trace",
        example: "v2g_charge station station.toml",
    },
    Usage {
        name: "car",
        values: "PLAN",
        does: "charges one car by the plan in the file PLAN, and writes the file v2g.trace",
        example: "v2g_charge car car.toml",
    },
    Usage {
        name: "replay",
        values: "PLAN TRACE",
        does: "runs a station over what its trace in the file TRACE heard, and writes v2g.trace anew",
        example: "v2g_charge replay station.toml run.trace",
    },
    Usage {
        name: "audit",
        values: "PLAN TRACE",
        does: "judges the trace in the file TRACE, whoever wrote it, for the plan in the file PLAN",
        example: "v2g_charge audit station.toml run.trace",
    },
    Usage {
        name: "talk",
        values: "STATION CAR SEED",
        does: "lets the station and the car of the plans in the files STATION and CAR talk in memory, in pieces by the number SEED",
        example: "v2g_charge talk station.toml car.toml 1",
    },
    Usage {
        name: "generate",
        values: "SEED COUNT",
        does: "lets COUNT cars talk in memory, one after another, with the station without a file, as they are drawn by the number SEED, and counts what it does",
        example: "v2g_charge generate 7 3",
    },
    Usage {
        name: "decode",
        values: "DIALECT HEX",
        does: "prints the text of the message that a payload is; DIALECT is app, iso or din",
        example: "v2g_charge decode app 80400040",
    },
    Usage {
        name: "encode",
        values: "DIALECT TEXT",
        does: "prints the payload of the message that a text is; DIALECT is app, iso or din",
        example: "v2g_charge encode app 'supportedAppProtocolRes{ResponseCode=OK_SuccessfulNegotiation SchemaID=1}'",
    },
    Usage {
        name: "basic",
        values: "SCRIPT",
        does: "prints the orders of a post in basic charging for the events of the script in the file SCRIPT",
        example: "v2g_charge basic basic.script",
    },
    Usage {
        name: "migrate",
        values: "TRACE",
        does: "writes the trace of format 1 in the file TRACE as one of format 2, in the file v2g.trace",
        example: "v2g_charge migrate old.trace",
    },
    Usage {
        name: "offer",
        values: "CALENDAR MOMENT",
        does: "prints what is offered for the day from the second MOMENT of it on, by the calendar in the file CALENDAR",
        example: "v2g_charge offer calendar.toml 75600",
    },
    Usage {
        name: "schedule",
        values: "NEED HEX",
        does: "prints the charging profile for the need in the file NEED that answers the schedules of a ChargeParameterDiscoveryRes of ISO 15118-2",
        example: "v2g_charge schedule need.toml 8098..",
    },
    Usage {
        name: "services",
        values: "CATALOGUE ID",
        does: "prints the payload of the ServiceDetailRes of ISO 15118-2 for the service ID of the catalogue in the file CATALOGUE",
        example: "v2g_charge services catalogue.toml 3",
    },
    Usage {
        name: "pick",
        values: "WANT HEX",
        does: "prints which set of a ServiceDetailRes of ISO 15118-2 a car picks that wants the parameters WANT",
        example: "v2g_charge pick 'Protocol=\"http\";Port=8080' 8098..",
    },
];

/// The commands.
fn commands() -> &'static [Usage] {
    &COMMANDS
}

impl fmt::Display for Usage {
    fn fmt<W: fmt::Write>(&self, f: &mut fmt::Formatter<W>) -> fmt::Result {
        write!(f, "v2g_charge {} {}", self.name, self.values)
    }
}

/// Says what the commands are, with an example each.
pub fn say_help<E: Eprint>(rt: &E) -> io::Result<()> {
    rt.eprintln(
        "The talk between an electric car and its charging post, after ISO 15118-2 and DIN SPEC 70121.\n",
    )?;
    for usage in commands() {
        eprintln!(rt; "  {usage}\n      {}\n      {}", usage.does, usage.example)?;
    }
    rt.eprintln(
        "\nThe status is 0 where all went well; docs/USE.md has the others. V2G_QUIET=1 in the environment silences what a station and a car say while they run.",
    )
}

/// Says the program's name and version.
pub fn say_version<E: Eprint>(rt: &E) -> io::Result<()> {
    rt.eprintln("v2g_charge 1.0 (ISO 15118-2:2014, DIN SPEC 70121:2014, traces of format 2)")
}

/// Says what is wrong with words that are no command, and how it is used.
pub fn say_misused<E: Eprint>(rt: &E, words: &WordList) -> io::Result<()> {
    let Some(name) = words.get(0) else {
        rt.eprintln("A command is missing.")?;
        return say_usages(rt);
    };
    let Some(usage) = usage_of(name) else {
        eprintln!(rt; "There is no command `{name}`.")?;
        return say_usages(rt);
    };
    say_values(rt, usage, words)?;
    eprintln!(rt; "Usage: {usage}\nFor example: {}", usage.example)
}

/// Says what is wrong with the values of a command.
fn say_values<E: Eprint>(rt: &E, usage: &Usage, words: &WordList) -> io::Result<()> {
    let wanted = usage.values.split(' ').count();
    let given = words.len().saturating_sub(1);
    if given != wanted {
        return eprintln!(rt;
            "`{}` wants {wanted} {} behind it, and {given} {}.",
            usage.name,
            if wanted == 1 { "word" } else { "words" },
            if given == 1 { "is there" } else { "are there" }
        );
    }
    if let Some(word) = dashed(words) {
        return eprintln!(rt;
            "`{word}` begins with a dash, and there are no options. A file of that name is `./{word}`."
        );
    }
    if usage.values == "SEED COUNT" {
        return say_seed_or_count(rt, words.get(1).unwrap_or(""), words.get(2).unwrap_or(""));
    }
    match (words.get(1), words.get(2), words.get(3)) {
        (Some(dialect), ..) if usage.values.starts_with("DIALECT") => {
            eprintln!(rt; "`{dialect}` is no DIALECT: write app, iso or din.")
        }
        (_, Some(moment), _) if usage.values.ends_with("MOMENT") => eprintln!(rt;
            "`{moment}` is no MOMENT: write the second of the day, 0 to 86399, in digits without a zero in front."
        ),
        (_, Some(id), _) if usage.values.ends_with(" ID") => eprintln!(rt;
            "`{id}` is no ID: write the service's identifier, 0 to 65535, in digits without a zero in front."
        ),
        (_, _, Some(seed)) if usage.values.ends_with("SEED") => say_no_seed(rt, seed),
        (Some(want), ..) if usage.values.starts_with("WANT") => eprintln!(rt;
            "`{want}` is no WANT: write 1 to 16 pairs NAME=VALUE with `;` between them, a VALUE being true, false, a number of 32 bits, or at most 64 characters in double quotes."
        ),
        _ => rt.eprintln("The words are no command."),
    }
}

/// Says what is wrong where the first isn't a seed or the second isn't a count.
fn say_seed_or_count<E: Eprint>(rt: &E, seed: &str, count: &str) -> io::Result<()> {
    if !is_seed(seed) {
        return say_no_seed(rt, seed);
    }
    eprintln!(rt;
        "`{count}` is no COUNT: write how many sessions, 1 to 1000, in digits without a zero in front."
    )
}

/// Whether a word is a number of 64 bits.
fn is_seed(word: &str) -> bool {
    number(word.as_bytes(), 0, u64::MAX).is_ok()
}

fn say_no_seed<E: Eprint>(rt: &E, seed: &str) -> io::Result<()> {
    eprintln!(rt;
        "`{seed}` is no SEED: write a number of 64 bits, 0 to 18446744073709551615, in digits without a zero in front."
    )
}

/// The first word that begins with a dash.
fn dashed(words: &WordList) -> Option<&str> {
    for place in 0..words.len() {
        let word = words.get(place)?;
        if word.starts_with('-') {
            return Some(word);
        }
    }
    None
}

fn usage_of(name: &str) -> Option<&'static Usage> {
    for usage in commands() {
        if usage.name == name {
            return Some(usage);
        }
    }
    None
}

fn say_usages<E: Eprint>(rt: &E) -> io::Result<()> {
    rt.eprintln("Usage:")?;
    for usage in commands() {
        eprintln!(rt; "  {usage}")?;
    }
    rt.eprintln("`v2g_charge --help` shows an example of each.")
}
