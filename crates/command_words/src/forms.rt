//! The forms of the commands.

/// How many values a command has behind its name.
#[derive(Clone, Copy)]
pub(crate) enum Values {
    One,
    Two,
    Three,
}

/// A command's name, and how many values it has.
#[derive(Clone, Copy)]
pub(crate) struct Form {
    pub(crate) name: &'static str,
    pub(crate) values: Values,
}

/// A command with one value.
macro_rules! with_one {
    ($name:expr) => {
        Form {
            name: $name,
            values: Values::One,
        }
    };
}

/// A command with two values.
macro_rules! with_two {
    ($name:expr) => {
        Form {
            name: $name,
            values: Values::Two,
        }
    };
}

/// A command with three values.
macro_rules! with_three {
    ($name:expr) => {
        Form {
            name: $name,
            values: Values::Three,
        }
    };
}

/// All commands.
pub(crate) const FORMS: [Form; 14] = [
    with_one!("station"),
    with_one!("car"),
    with_two!("replay"),
    with_two!("audit"),
    with_three!("talk"),
    with_two!("generate"),
    with_two!("decode"),
    with_two!("encode"),
    with_one!("basic"),
    with_one!("migrate"),
    with_two!("offer"),
    with_two!("schedule"),
    with_two!("services"),
    with_two!("pick"),
];
