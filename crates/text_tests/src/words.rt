//! Words of a command line.

use crate::cases::{Case, all_hold};
use command_words::{Command, WordList, WordsFault, read_words};
use message_dialects::MessageDialect;
use std::alloc::{AllocError, Global};

/// The words of a command line, with `|` between, and whether they are a command: that of the first word, whose values are the others in
/// their order.
struct Words(&'static str, bool);

fn list_of(alloc: Global, words: &str) -> Result<WordList, AllocError> {
    let mut list = Vec::new(alloc);
    for word in words.split('|') {
        list.push(String::from_str(alloc, word)?)?;
    }
    Ok(WordList::of(list))
}

fn name_of(dialect: MessageDialect) -> &'static str {
    match dialect {
        MessageDialect::App => "app",
        MessageDialect::Iso => "iso",
        MessageDialect::Din => "din",
    }
}

/// Whether words are the name of a command, and its values in their order.
fn are_of(words: &WordList, command: Command<'_>) -> bool {
    let (name, first, second) = match command {
        Command::Station { plan } => ("station", plan, None),
        Command::Replay { plan, trace } => ("replay", plan, Some(trace)),
        Command::Decode { dialect, hex } => ("decode", name_of(dialect), Some(hex)),
        Command::Encode { dialect, text } => ("encode", name_of(dialect), Some(text)),
        Command::Basic { script } => ("basic", script, None),
        _ => return false,
    };
    words.get(0) == Some(name) && words.get(1) == Some(first) && words.get(2) == second
}

impl Case for Words {
    fn holds(&self, alloc: Global) -> bool {
        let Ok(words) = list_of(alloc, self.0) else {
            return false;
        };
        match read_words(alloc, &words) {
            Ok(command) => self.1 && are_of(&words, command),
            Err(WordsFault::NoCommand) => !self.1,
            Err(WordsFault::Memory) => false,
        }
    }
}

const WORDS: [Words; 60] = [
    Words("station|plan.toml", true),
    Words("station|", true),
    Words("station|station", true),
    Words("station|é", true),
    Words("replay|plan.toml|v2g.trace", true),
    Words("decode|app|80400040", true),
    Words("decode|app|", true),
    Words("decode|iso|app", true),
    Words("decode|iso|decode", true),
    Words("decode|din|8-", true),
    Words("decode|din|é", true),
    Words("encode|app|a{b=1 c=2}", true),
    Words("encode|iso|", true),
    Words("encode|din|{-}", true),
    Words("basic|basic.script", true),
    // no command's name
    Words("", false),
    Words("|app|80", false),
    Words("Station", false),
    Words("stations", false),
    Words("stat", false),
    Words(" station", false),
    Words("v2g_charge", false),
    Words("v2g_charge|station", false),
    Words("v2g_charge|station|plan", false),
    Words("80|app|decode", false),
    // there is no help
    Words("help", false),
    Words("help|decode", false),
    Words("station|help|plan", false),
    Words("-h", false),
    Words("--help", false),
    Words("--version", false),
    // a value is missing
    Words("station", false),
    Words("replay", false),
    Words("replay|plan", false),
    Words("decode", false),
    Words("decode|app", false),
    Words("encode", false),
    Words("encode|app", false),
    Words("basic", false),
    // a word too many
    Words("station|plan|", false),
    Words("station|station|station", false),
    Words("replay|plan|trace|trace", false),
    Words("decode|app|80|", false),
    Words("encode|app|a|b|c", false),
    Words("basic|script|script", false),
    // no dialect
    Words("decode||80", false),
    Words("decode|APP|80", false),
    Words("encode|appp|a", false),
    Words("encode|Iso|a", false),
    Words("decode|dim|80", false),
    Words("decode|iso din|80", false),
    // `-` begins a word
    Words("-|app|80", false),
    Words("--|station|plan", false),
    Words("station|-x", false),
    Words("replay|plan|-", false),
    Words("replay|-plan|trace", false),
    Words("decode|-app|80", false),
    Words("decode|--|app|80", false),
    Words("decode|app|-80", false),
    Words("encode|app|--", false),
];

/// Words stand in their order, and none are no command.
fn words_are_listed(alloc: Global) -> bool {
    let Ok(words) = list_of(alloc, "a|") else {
        return false;
    };
    let none = WordList::of(Vec::new(alloc));
    words.len() == 2
        && !words.is_empty()
        && words.get(0) == Some("a")
        && words.get(1) == Some("")
        && words.get(2).is_none()
        && none.is_empty()
        && matches!(read_words(alloc, &none), Err(WordsFault::NoCommand))
}

#[test]
fn words_are_read_as_commands_or_refused(rt: HostRuntime) {
    all_hold(&rt, rt.alloc(), &WORDS);
    assert!(rt; words_are_listed(rt.alloc()));
}
