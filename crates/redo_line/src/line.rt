//! The words of a call: those of the command line, and in front of them those of `REDOFLAGS`.

use clap::ArgMatches;
use clap::parser::ValueSource;

/// An option: by which name the parser knows it, and how users write it.
#[derive(Clone, Copy)]
pub(crate) struct Named(pub(crate) &'static str, pub(crate) &'static str);

impl Named {
    /// Whether the option is among these words.
    pub(crate) fn is_in(self, matches: &ArgMatches<'_>) -> bool {
        matches.value_source(self.0) == Some(ValueSource::CommandLine)
    }
}

/// What a call says: on its command line, and in the environment.
#[derive(Drop)]
pub(crate) struct Line<'a> {
    /// What the command line says.
    pub(crate) own: ArgMatches<'a>,
    /// What `REDOFLAGS` says, if it is there.
    pub(crate) flags: Option<ArgMatches<'a>>,
}

impl<'a> Line<'a> {
    /// Whether the command line has an option.
    pub(crate) fn has_own(&self, option: Named) -> bool {
        option.is_in(&self.own)
    }

    /// Whether an option is given, on the command line or in the environment. The command line prevails: an option in
    /// the environment counts only if it goes with those of the command line.
    pub(crate) fn has(&self, option: Named) -> bool {
        self.has_own(option) || self.in_flags(option).is_some()
    }

    /// What the environment says, where it has an option that counts.
    fn in_flags(&self, option: Named) -> Option<&ArgMatches<'a>> {
        let flags = self.flags.as_ref()?;
        if option.is_in(flags) && !crate::commands::is_overruled(&self.own, option) {
            Some(flags)
        } else {
            None
        }
    }

    /// The value of an option.
    pub(crate) fn word(&self, option: Named) -> Option<&'a str> {
        if self.has_own(option) {
            return self.own.get_str(option.0);
        }
        self.in_flags(option)?.get_str(option.0)
    }

    /// The targets that are named.
    pub(crate) fn targets(&self) -> Option<&[&'a str]> {
        self.own.get_strs("targets")
    }

    /// The places at which files are taken back.
    pub(crate) fn taken(&self) -> Option<&[&'a str]> {
        self.own.get_strs("take")
    }

    /// The words that have the number of jobs, the last of which counts.
    pub(crate) fn jobs(&self) -> Option<&ArgMatches<'a>> {
        if self.has_own(crate::commands::JOBS) {
            Some(&self.own)
        } else {
            self.in_flags(crate::commands::JOBS)
        }
    }
}
