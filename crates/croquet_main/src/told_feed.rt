//! A feed that says on the error stream what is wrong with a line.
ghost use Rattle.std.specs.Prelude.{◌≡◌};

use hints::live_hint;
use live_shell::{Fed, Feed};
use std::io::Eprint;

/// Of how many lines it is said what is wrong with them. A program that gives wrong lines and reads no hints is not to wait for room in a pipe.
const MOST_TOLD: u32 = 50;

/// A feed whose lines are looked at, unless it is to be quiet: of the first lines that are none it is said what is wrong with them, before they are given.
#[derive(Drop)]
pub struct ToldFeed<'a, R, K> {
    rt: &'a R,
    feed: K,
    is_quiet: bool,
    /// How many lines were given.
    lines: u64,
    /// Of how many lines something was said.
    told: u32,
}

impl<'a, R, K: Feed> ToldFeed<'a, R, K> {
    /// Over this feed, which has given no line yet.
    pub fn new(rt: &'a R, feed: K, is_quiet: bool) -> ToldFeed<'a, R, K>
        ensures { result.feed ≡ feed }
    {
        ToldFeed {
            rt,
            feed,
            is_quiet,
            lines: 0,
            told: 0,
        }
    }
}

/// Says what is wrong with a line, the one of this number. Tells whether something is.
fn say_line<R: Eprint + AllocGlobal>(rt: &R, number: u64, line: &[u8]) -> bool {
    match live_hint(rt.alloc(), number, line) {
        Ok(text) if !text.is_empty() => {
            let _ = eprint!(rt; "{text}");
            true
        }
        _ => false,
    }
}

impl<R: Eprint + AllocGlobal, K: Feed> Feed for ToldFeed<'_, R, K> {
    ghost coming = { λ lines. K.coming lines.feed };

    ghost told = { λ lines. K.told lines.feed };

    ghost faults = { λ lines. K.faults lines.feed };

    fn next(&mut self) -> Fed {
        let fed = self.feed.next();
        if let Fed::Line(line) = &fed {
            self.lines = self.lines.saturating_add(1);
            let is_looked_at = !self.is_quiet && self.told < MOST_TOLD;
            if is_looked_at && say_line(self.rt, self.lines, line.bytes()) {
                self.told = self.told.saturating_add(1);
            }
        }
        fed
    }

    fn pause(&mut self) {
        self.feed.pause();
    }
}
