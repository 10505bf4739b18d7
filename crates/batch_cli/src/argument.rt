//! The arguments of a command, built for `clap`.
ghost use Rattle.std.specs.Prelude.{◌≡◌, false};
ghost use Rattle.clap.specs.Words.{rule_of};
ghost use Rattle.batch_cli.specs.Table.{argument_rule};

use clap::builder::ValueParser;
use clap::{Arg, ArgAction};
use std::alloc::Global;

/// An argument: its name, the form of its words, and its help text.
pub(crate) struct Argument<'a>(pub(crate) &'a str, pub(crate) Form, pub(crate) &'a str);

/// The form of an argument's words.
pub(crate) enum Form {
    /// A word that has to be there.
    Word,
    /// A word that may be left out.
    Optional,
    /// Any number of words.
    Several,
    /// A flag, as `--quiet`.
    Flag,
    /// An option that takes a path.
    Path,
    /// An option that takes a number of this range, the ends included.
    Number(u64, u64),
}

impl<'a> Argument<'a> {
    /// Builds the argument for `clap`.
    pub(crate) fn to_arg(&self, alloc: Global) -> Arg<'a>
        ensures rule { rule_of result ≡ argument_rule self.now }
        ensures local { result.global ≡ false }
    {
        let (name, help) = (self.0, self.2);
        let arg = Arg::new(alloc, name).help(help);
        match self.1 {
            Form::Word => arg.action(ArgAction::Set).required(true),
            Form::Optional => arg.action(ArgAction::Set),
            Form::Several => arg.action(ArgAction::Append).num_args(0..),
            Form::Flag => arg.action(ArgAction::SetTrue).long(name),
            Form::Path => arg.action(ArgAction::Set).long(name).value_name("FILE"),
            Form::Number(least, most) => arg
                .action(ArgAction::Set)
                .long(name)
                .value_name("N")
                .value_parser(ValueParser::unsigned(least, most)),
        }
    }
}
