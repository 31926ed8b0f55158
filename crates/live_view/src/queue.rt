//! The lines that came.
ghost use Rattle.std.specs.Prelude.{◌≡◌, ◌≤◌, ◌+◌, ℕ, [], ◌∷◌, ◌++◌, drop, length, OnOk};
ghost use Rattle.std.specs.List.{AllByRecursion};
ghost use Rattle.view_script.specs.PlainLine.{LineFits, Settle, most_publishes, plain_line, plain_lines, publish_count as count_publishes};
ghost use Rattle.live_view.specs.View.{HasLines, queue_left};

use std::alloc::Global;
use tea_base::{WantOfMemory, push};
use view_script::{ViewLine, publish_count};

/// The lines that came: so many were begun, and the others are left. And how many of those publish.
#[derive(Drop)]
pub struct Queue {
    lines: Vec<ViewLine>,
    begun: usize,
    publishes: usize,
}

/// Puts lines behind others.
fn append(lines: &mut Vec<ViewLine>, more: &mut Vec<ViewLine>) -> Result<(), WantOfMemory>
    ensures { OnOk result (lines.new.items ≡ lines.old.items ++ more.old.items) }
{
    lines.append(more)?;
    Ok(())
}

impl Queue {
    /// No lines. Takes no memory.
    pub fn new(alloc: Global) -> Queue
        ensures left { queue_left result ≡ [] }
        ensures lines { HasLines 0 result }
    {
        Queue {
            lines: Vec::new(alloc),
            begun: 0,
            publishes: 0,
        }
    }

    /// The lines that are left.
    pub fn left(&self) -> &[ViewLine]
        requires { self.now.begun ≤ length self.now.lines.items }
        ensures { result.now ≡ drop self.now.begun self.now.lines.items }
    {
        &self.lines[self.begun..]
    }

    /// How many of the lines that are left publish.
    pub fn publishes(&self) -> usize
        ensures { result ≡ self.now.publishes }
    {
        self.publishes
    }

    /// How many of the next lines publish.
    fn publishes_of(&self, count: usize) -> usize
        requires { self.now.begun + count ≤ length self.now.lines.items }
        ensures { result + count_publishes (plain_lines (drop (self.now.begun + count) self.now.lines.items))
            ≡ count_publishes (queue_left self.now) }
    {
        publish_count(&self.lines[self.begun..self.begun + count])
    }

    /// So many of the lines that are left are begun.
    pub fn begin(&mut self, count: usize)
        requires within { self.old.begun + count ≤ length self.old.lines.items }
        requires counted { self.old.publishes ≡ count_publishes (queue_left self.old) }
        ensures left { queue_left self.new ≡ plain_lines (drop count (drop self.old.begun self.old.lines.items)) }
        ensures within { self.new.begun ≤ length self.new.lines.items }
        ensures counted { self.new.publishes ≡ count_publishes (queue_left self.new) }
    {
        let begun = self.begun + count;
        let len = self.lines.len();
        if begun < len {
            let done = self.publishes_of(count);
            self.publishes -= done;
            self.begun = begun;
            return;
        }
        self.lines.clear();
        self.begun = 0;
        self.publishes = 0;
    }

    /// These lines are left behind the others; so many of them publish.
    pub fn put(&mut self, more: Vec<ViewLine>, publishes: usize) -> Result<(), WantOfMemory>
        requires within { self.old.begun ≤ length self.old.lines.items }
        requires few { self.old.publishes + publishes ≤ most_publishes }
        ensures left { OnOk result (queue_left self.new ≡ queue_left self.old ++ plain_lines more.items) }
        ensures within { OnOk result (self.new.begun ≤ length self.new.lines.items) }
        ensures counted { OnOk result (self.new.publishes ≡ self.old.publishes + publishes) }
    {
        let mut more = more;
        append(&mut self.lines, &mut more)?;
        self.publishes += publishes;
        Ok(())
    }

    /// This line is left before the others; so many events are published by it.
    pub fn put_first(&mut self, line: ViewLine, publishes: usize) -> Result<(), WantOfMemory>
        requires within { self.old.begun ≤ length self.old.lines.items }
        requires few { self.old.publishes + publishes ≤ most_publishes }
        ensures left { OnOk result (queue_left self.new ≡ plain_line line ∷ queue_left self.old) }
        ensures within { OnOk result (self.new.begun ≤ length self.new.lines.items) }
        ensures counted { OnOk result (self.new.publishes ≡ self.old.publishes + publishes) }
    {
        self.lines.insert(self.begun, line)?;
        self.publishes += publishes;
        Ok(())
    }

    /// One line is left: that each event is acknowledged.
    pub fn settle(&mut self) -> Result<(), WantOfMemory>
        ensures left { OnOk result (queue_left self.new ≡ Settle ∷ []) }
        ensures within { OnOk result (self.new.begun ≤ length self.new.lines.items) }
        ensures counted { OnOk result (self.new.publishes ≡ 0) }
    {
        self.lines.clear();
        self.begun = 0;
        self.publishes = 0;
        push(&mut self.lines, ViewLine::Settle)
    }

    /// No line is left. Takes no memory.
    pub fn clear(&mut self)
        ensures left { queue_left self.new ≡ [] }
        ensures lines { (published : ℕ) → published ≤ most_publishes → HasLines published self.new }
    {
        self.lines.clear();
        self.begun = 0;
        self.publishes = 0;
    }
}
