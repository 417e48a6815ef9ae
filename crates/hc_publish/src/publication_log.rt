//! The publication log, with an entry for each publishing: the list that was about to be shown. It exists only in the proofs,
//! beside a word that counts its entries. From it two threads know that one of their lists begins the other.
ghost use Rattle.std.specs.Prelude.{◌≡◌, ◌<◌, [], ◌∷◌, ◌++◌, length, None, IfSome, MatchBool};
ghost use Rattle.hc_publish.specs.PublicationLog.{Extends, log_end_of, top};

use crate::shown::Shown;
use logbook::{Gain, Offer, Plain, Play, Rule, Seen, Start, Word};
use std::marker::Model;

/// The rule of the log. An entry is the content of a copy; no value of it exists at run time.
pub struct Law;

impl Rule<Shown, u64> for Law {
    ghost use Rattle.std.specs.Prelude.{[]};
    ghost use base.Fml.{ftrue};
    ghost use Rattle.hc_publish.specs.PublicationLog.{IsUnchanged};

    ghost holds = { λ cells log. IsUnchanged cells log };

    ghost first = { [] };

    ghost hinted = { λ n log. Unit {0} };

    ghost shows = { λ log. [] };

    ghost keeps = { λ names log. ftrue };

    ghost moves = { λ ask before after answer. Unit {0} };
}

/// The payload of a step: callers exchange nothing.
pub struct Nothing;

impl Gain<Shown, u64> for Nothing {
    ghost use base.Fml.{ftrue};

    ghost after = { λ names about answer. ftrue };
}

/// The step that adds an entry.
pub struct Add;

impl Play<Shown, u64> for Add {
    ghost use Rattle.hc_publish.specs.PublicationLog.{Adds};

    ghost then = { Adds };
}

impl Plain<Shown, Shown, u64> for Add {
    ghost use Rattle.std.specs.Prelude.{None};

    ghost ask = { λ shown. shown };

    ghost state = { λ shown. None };
}

/// A prefix of the log that was seen.
pub type Token = Seen<Shown, u64, Law>;

/// The word that counts the entries.
pub type Head = Word<Shown, u64, Law>;

/// A prefix of the log, with at least one entry. Contracts see the entries that were seen.
#[derive(Drop)]
pub struct LogPrefix {
    count: u64,
    seen: Token,
}

impl Model for LogPrefix {
    ghost use Rattle.std.specs.Prelude.{◌≡◌, ◌<◌, length};
    ghost use Rattle.hc_publish.specs.PublicationLog.{TheSeen};

    ghost Value = { TheSeen };

    ghost view = { λ front. front.seen };

    ghost invariant = { λ front. (front.count ≡ length front.seen.log) × (0 < length front.seen.log) };
}

/// Adds an entry after all that were seen. Returns `None` if the log has an entry that this token has not seen.
fn entered<X, M: Plain<X, Shown, u64>>(
    head: &Head,
    seen: &Token,
    count: u64,
    about: &X,
) -> Option<LogPrefix>
    requires head { head.now ≡ log_end_of seen.now.book }
    requires counted { count ≡ length seen.now.log }
    requires plain { M.state about.now ≡ None }
    requires extends { 0 < length seen.now.log → Extends (top seen.now.log) (M.ask about.now) }
    ensures { IfSome result (λ front. (front.book ≡ seen.now.book) × (front.log ≡ seen.now.log ++ M.ask about.now ∷ [])) }
{
    if count == u64::MAX {
        return None;
    }
    let next = count + 1;
    let mut seen = seen.again();
    let mut offer: Offer<Shown, u64, Law, Nothing> = seen.plain::<Nothing, X, M>(about);
    let mut pen = seen.no_pen();
    let found = head.compare_exchange::<Add, Nothing>(count, next, &mut seen, &mut offer, &mut pen);
    if found == count {
        Some(LogPrefix { count: next, seen })
    } else {
        None
    }
}

impl LogPrefix {
    /// Returns a new log with one entry, the list that is shown at the opening. `None` if the entry was refused, which never
    /// occurs in practice.
    pub fn opened(shown: &Shown) -> Option<(Head, LogPrefix)>
        ensures { IfSome result (λ opened. (opened.0 ≡ log_end_of opened.1.book) × (opened.1.log ≡ shown.now ∷ [])) }
    {
        let (seen, mut first, _second) = Seen::open(Start::alone(), 0, 0);
        let head = Word::tracked(0, &mut first);
        let front = entered::<Shown, Add>(&head, &seen, 0, shown)?;
        Some((head, front))
    }

    /// Returns an equal prefix.
    pub fn again(&self) -> LogPrefix
        ensures { result ≡ self.now }
    {
        LogPrefix {
            count: self.count,
            seen: self.seen.again(),
        }
    }

    /// Returns whether all entries of this prefix are in the other, which is a prefix of the same log. Otherwise all entries of
    /// the other are in this one.
    pub fn is_within(&self, other: &LogPrefix) -> bool
        requires { other.now.book ≡ self.now.book }
        ensures { MatchBool result (Extends (top self.now.log) (top other.now.log)) (Extends (top other.now.log) (top self.now.log)) }
    {
        let mut both = self.seen.again();
        both.learn(&other.seen);
        self.count <= other.count
    }

    /// Returns the prefix with one more entry. `None` if the log has an entry that this prefix has not seen, which never occurs
    /// in practice.
    pub fn with<X, M: Plain<X, Shown, u64>>(&self, head: &Head, about: &X) -> Option<LogPrefix>
        requires head { head.now ≡ log_end_of self.now.book }
        requires plain { M.state about.now ≡ None }
        requires extends { Extends (top self.now.log) (M.ask about.now) }
        ensures { IfSome result (λ front. (front.book ≡ self.now.book) × (front.log ≡ self.now.log ++ M.ask about.now ∷ [])) }
    {
        entered::<X, M>(head, &self.seen, self.count, about)
    }
}
