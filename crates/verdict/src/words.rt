// The words that verdicts and replies print.
ghost use Rattle.std.specs.Prelude.{Some};
ghost use Rattle.verdict.specs.Words.{reason_words, which_words, verdict_words, action_words, carried_words, reply_words};

use crate::{Action, Carried, Reason, Reply, Verdict, Which};
use std::fmt;

impl fmt::Display for Reason {
    ghost output = { λ reason. Some (reason_words reason) };

    fn fmt<W: fmt::Write>(&self, f: &mut fmt::Formatter<W>) -> fmt::Result {
        f.write_str(match self {
            Reason::Method => "method",
            Reason::Hash => "hash",
            Reason::Time => "time",
        })
    }
}

impl fmt::Display for Which {
    ghost output = { λ which. Some (which_words which) };

    fn fmt<W: fmt::Write>(&self, f: &mut fmt::Formatter<W>) -> fmt::Result {
        f.write_str(match self {
            Which::Generating => "generating",
            Which::Other => "other",
        })
    }
}

// A good verdict with its age and the secret that matched.
impl fmt::Display for Verdict {
    ghost output = { λ verdict. Some (verdict_words verdict) };

    fn fmt<W: fmt::Write>(&self, f: &mut fmt::Formatter<W>) -> fmt::Result {
        match *self {
            Verdict::Ignored => f.write_str("ignored"),
            Verdict::Absent => f.write_str("absent"),
            Verdict::ClientOnly => f.write_str("client-only"),
            Verdict::Bad(reason) => write!(f, "bad {reason}"),
            Verdict::Good { age, secret } => write!(f, "good {age} {secret}"),
        }
    }
}

impl fmt::Display for Action {
    ghost output = { λ action. Some (action_words action) };

    fn fmt<W: fmt::Write>(&self, f: &mut fmt::Formatter<W>) -> fmt::Result {
        f.write_str(match self {
            Action::Serve => "serve",
            Action::BadCookie => "badcookie",
            Action::Truncate => "truncate",
        })
    }
}

impl fmt::Display for Carried {
    ghost output = { λ carried. Some (carried_words carried) };

    fn fmt<W: fmt::Write>(&self, f: &mut fmt::Formatter<W>) -> fmt::Result {
        f.write_str(match self {
            Carried::Nothing => "none",
            Carried::Fresh => "fresh",
            Carried::Kept => "kept",
        })
    }
}

// What the reply is, and the option in it.
impl fmt::Display for Reply {
    ghost output = { λ reply. Some (reply_words reply) };

    fn fmt<W: fmt::Write>(&self, f: &mut fmt::Formatter<W>) -> fmt::Result {
        write!(f, "{} {}", self.action, self.option)
    }
}
