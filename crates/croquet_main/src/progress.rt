//! The line that shows on a terminal how far long work is.
use crate::recorded::Recorded;
use run_notes::{Pace, Shadow, Work, work_of};
use std::alloc::Global;
use std::io::Eprint;
use std::sync::atomic::{AtomicU64, Ordering};
use std::sync::{Arc, Wait};
use std::thread;
use std::thread::{JoinHandle, Parker, Threads};
use std::time::{Clock, Duration, Instant};
use tea_base::{Text, Words};
use tea_io::Gate;

/// Work that is shorter is not shown, in milliseconds.
const SHORT: u64 = 1000;

/// How long a line stands before the next one, in milliseconds.
const STEP: u64 = 250;

/// How often the end of the showing is tried, a millisecond apart. A terminal that takes nothing may hold a line up.
const MOST_TRIES: u32 = 1000;

/// Nobody writes a line just now.
const IDLE: u64 = 0;

/// A line is being written.
const WRITING: u64 = 1;

/// No further line comes.
const OVER: u64 = 2;

/// What is known of the work, and what is shown of it.
#[derive(Drop)]
struct Shown {
    work: Work,
    /// The recorded session of which the work is a run, where it is one.
    recorded: Option<Recorded>,
    /// How many things the work itself has counted.
    done: AtomicU64,
    /// `IDLE`, `WRITING` or `OVER`. Whoever writes has changed it from `IDLE`.
    state: AtomicU64,
    /// How many lines were written.
    lines: AtomicU64,
    parker: Parker,
}

impl Shown {
    fn new(work: Work, recorded: Option<Recorded>) -> Shown {
        Shown {
            work,
            recorded,
            done: AtomicU64::new(0),
            state: AtomicU64::new(IDLE),
            lines: AtomicU64::new(0),
            parker: Parker::new(),
        }
    }

    fn changes(&self, from: u64, to: u64) -> bool {
        self.state
            .compare_exchange(from, to, Ordering::SeqCst, Ordering::SeqCst)
            .is_ok()
    }

    fn is_over(&self) -> bool {
        self.state.load(Ordering::SeqCst) == OVER
    }

    /// A second run of the recorded session, once its files were read.
    fn second<R: Clock>(&self, rt: &R) -> Option<Second> {
        Some(Second {
            shadow: self.recorded.as_ref()?.shadow()?,
            began: Instant::now(rt).ok()?,
            millis: 0,
        })
    }

    /// How far the work is that has taken so many milliseconds: what the second run tells where there is one, and else what the work itself counts.
    fn pace(&self, second: &Option<Second>, millis: u64) -> Pace {
        match second {
            Some(second) => Pace {
                done: second.shadow.done(),
                total: second.shadow.total(),
                millis: second.millis,
            },
            None => Pace {
                done: self.done.load(Ordering::SeqCst),
                total: self.work.total(),
                millis,
            },
        }
    }

    /// Writes the line over the one before it. Tells whether a further one may come.
    fn write<R: Eprint + AllocGlobal>(&self, rt: &R, seconds: u64, pace: Pace) -> bool {
        if !self.changes(IDLE, WRITING) {
            return false;
        }
        if let Ok(line) = self.work.line(rt.alloc(), seconds, pace) {
            let _ = eprint!(rt; "\r{line}\x1b[K");
            self.lines.fetch_add(1, Ordering::SeqCst);
        }
        self.changes(WRITING, IDLE)
    }

    /// Takes the line away, after which none is written. Where the terminal holds the line up for a second, it stays.
    fn end<R: Eprint + Clock>(&self, rt: &R) {
        for _ in 0..MOST_TRIES {
            if self.changes(IDLE, OVER) {
                if self.lines.load(Ordering::SeqCst) > 0 {
                    let _ = eprint!(rt; "\r\x1b[K");
                }
                break;
            }
            if self.is_over() {
                break;
            }
            let _ = thread::sleep(rt, Duration::from_millis(1));
        }
        self.parker.unpark();
    }
}

/// The second run of a recorded session, and how long it has run.
#[derive(Drop)]
struct Second {
    shadow: Shadow,
    began: Instant,
    /// How many milliseconds it had run at its last step.
    millis: u64,
}

impl Second {
    /// Goes on for so many milliseconds, or until the showing is over. Tells whether it goes further.
    fn goes_on<R: Clock>(&mut self, rt: &R, shown: &Shown, pause: u64) -> bool {
        let until = self.millis.saturating_add(pause);
        for _ in 0..u64::MAX {
            if shown.is_over() || !self.shadow.step() {
                return false;
            }
            let Some(millis) = millis_since(rt, self.began) else {
                return false;
            };
            self.millis = millis;
            if millis >= until {
                break;
            }
        }
        true
    }
}

/// How many milliseconds have passed.
fn millis_since<R: Clock>(rt: &R, began: Instant) -> Option<u64> {
    let now = Instant::now(rt).ok()?;
    let millis = now.saturating_duration_since(began).as_millis();
    Some(u64::try_from(millis).unwrap_or(u64::MAX))
}

/// Waits until the next line is due. A second run goes on meanwhile.
fn wait_for_next<R: Wait + Clock>(rt: &R, shown: &Shown, second: &mut Option<Second>, pause: u64) {
    let goes = match second {
        Some(second) => second.goes_on(rt, shown, pause),
        None => false,
    };
    if !goes && !shown.is_over() {
        shown.parker.park_timeout(rt, Duration::from_millis(pause));
    }
}

/// Waits until the next line is due, and writes it. Work that is short has none, and no second run. Tells whether a further one may come.
fn show_next<R: Wait + Clock + Eprint + AllocGlobal>(
    rt: &R,
    shown: &Shown,
    began: Instant,
    second: &mut Option<Second>,
) -> bool {
    let Some(millis) = millis_since(rt, began) else {
        return false;
    };
    wait_for_next(rt, shown, second, SHORT.saturating_sub(millis).max(STEP));
    let Some(millis) = millis_since(rt, began) else {
        return false;
    };
    if millis < SHORT || shown.is_over() {
        return !shown.is_over();
    }
    let goes = shown.write(rt, millis / 1000, shown.pace(second, millis));
    if goes && second.is_none() {
        *second = shown.second(rt);
    }
    goes
}

/// Writes lines until the showing is over.
fn show<R: Wait + Clock + Eprint + AllocGlobal>(rt: &R, shown: &Shown) {
    let Ok(began) = Instant::now(rt) else {
        return;
    };
    let mut second = None;
    for _ in rt.forever() {
        if !show_next(rt, shown, began, &mut second) {
            break;
        }
    }
}

/// How far the work of a run is, and the thread that shows it where it is shown.
#[derive(Drop)]
pub struct Progress {
    shown: Option<Arc<Shown, Global>>,
}

impl Progress {
    /// That of a run of these words, which nobody shows yet. Where memory is short, none is shown.
    pub fn of(alloc: Global, words: &Words, is_shown: bool) -> Progress {
        if !is_shown {
            return Progress { shown: None };
        }
        let shown = match work_of(alloc, words) {
            Ok(Some(work)) => {
                let recorded = Recorded::of(alloc, words);
                Arc::new(alloc, Shown::new(work, recorded)).ok()
            }
            _ => None,
        };
        Progress { shown }
    }

    /// Begins to show it, in a thread that waits a second first. Where there is no thread, nothing is shown.
    pub fn begin<R: Threads + Wait + Clock + Eprint + AllocGlobal + Copy + Send + 'static>(
        &self,
        rt: R,
    ) -> Option<JoinHandle<()>> {
        let theirs = Arc::try_clone(self.shown.as_ref()?).ok()?;
        thread::spawn(&rt, move || show(&rt, &theirs)).ok()
    }

    /// A file was read.
    pub fn note_read(&self, name: &Text, bytes: &[u8]) {
        if let Some(shown) = &self.shown {
            if let Some(recorded) = &shown.recorded {
                recorded.note_read(name, bytes);
            }
        }
    }

    /// Takes the line away, and waits for the thread that shows it.
    pub fn finish<R: Threads + Clock + Eprint>(&self, rt: &R, shower: Option<JoinHandle<()>>) {
        self.end(rt);
        if let Some(shower) = shower {
            shower.join(rt);
        }
    }

    /// Takes the line away. None is shown from then on.
    pub fn end<R: Eprint + Clock>(&self, rt: &R) {
        if let Some(shown) = &self.shown {
            shown.end(rt);
        }
    }
}

/// Lets all workers through at once, and counts how often.
#[derive(Clone, Copy)]
pub struct TurnGate<'a> {
    progress: &'a Progress,
}

impl<'a> TurnGate<'a> {
    /// A gate that counts for this.
    pub fn new(progress: &'a Progress) -> TurnGate<'a> {
        TurnGate { progress }
    }
}

impl Gate for TurnGate<'_> {
    fn pass(&self, _worker: u32, _turn: u32) {
        if let Some(shown) = &self.progress.shown {
            shown.done.fetch_add(1, Ordering::SeqCst);
        }
    }
}
