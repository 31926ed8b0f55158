//! A live view.
ghost use Rattle.std.specs.Prelude.{◌≡◌, ◌<◌, ◌≤◌, ◌+◌, ℕ, false, true, nat_lt, ◌++◌, List, None, Some, IfOk, IsTrue, OnErr, OnOk};
ghost use Rattle.std.specs.Arc.{arc_value};
ghost use Rattle.model_solved.specs.Founding.{founding_of};
ghost use Rattle.std.specs.List.{AllByRecursion};
ghost use Rattle.view_script.specs.PlainLine.{LineFits, most_publishes, plain_lines, publish_count as publish_count_of};
ghost use Rattle.view_shell.specs.Phases.{Viewer, enter_session};
ghost use Rattle.view_shell.specs.Viewers.{IsReady, KnowsItself, viewer};
ghost use Rattle.live_view.specs.declared.input.LiveInput.TheVariants as tells;
ghost use Rattle.live_view.specs.Doing.{IsReadyAt, Tells, aim_of, came, votes_at as votes_of, votes_for};
ghost use Rattle.live_view.specs.Live.{awaited, closes, counts, drives, goes_on, has_arrived, heard_by, heard_step, hears, held_on, holds_after, holds_by, holds_on, is_held, is_over, join_behind as behind, joined_as as entry_in, joined_in, line_again, line_at, line_step, lines_kept, link_step, live_step, one_fewer, one_more, or_joined as entry_or, phase_step, rests, revived, unlinked_by, viewer_of, waits, wakes, wanted};
ghost use Rattle.live_view.specs.Lines.{Lines, read_line};
ghost use Rattle.live_view.specs.Said.{AreFit, says};
ghost use Rattle.live_view.specs.Script.{first_state};
ghost use Rattle.live_view.specs.View.{HasLines, IsLive, IsLost, left, live_state, told_by};

use crate::facts::{seen_of, tell_few};
use crate::input::{Goal, LiveInput, Place};
use crate::joining::join;
use crate::outcome::{LiveOutcome, LiveWant};
use crate::queue::Queue;
use crate::reading::{Said, read_line};
use crate::rows::{hear, joined_as, link_ends, or_joined};
use crate::script::{do_lines, tell_bad_line};
use model_solved::Checked;
use replica::Replica;
use replica_plain::How;
use std::alloc::Global;
use std::sync::Arc;
use tea_base::{Blob, SessionId, TIME_LIMIT, WantOfMemory};
use tea_io::Heard;
use view_bridge::ViewTopics;
use view_script::{ViewLine, publish_count};
use view_shell::{ViewEnd, Watcher, has_caught_up};

/// One line more came.
fn one_more(count: u64) -> u64
    ensures { result ≡ one_more count }
{
    count.saturating_add(1)
}

/// How a view joins on the next link, where it heard one that is gone for this.
fn join_behind(goal: Goal) -> How
    ensures { result ≡ behind (aim_of goal) }
{
    match goal {
        Goal::Join(how) => how,
        Goal::Reach(_) => How::Resume,
        Goal::Settle => How::Resume,
        Goal::CatchUp => How::Resume,
        Goal::Snap => How::Resume,
        Goal::See(_) => How::Resume,
    }
}

/// The most events that a view publishes.
const MOST_PUBLISHES: usize = 1_048_576;

/// How many votes are at work in this place.
fn votes_at(place: Place) -> u32
    ensures { result ≡ votes_of (Some place) }
{
    match place {
        Place::Unlinked(_) => 0,
        Place::Hears(goal) => votes_for(goal),
        Place::Gone(_) => 0,
    }
}

/// How many votes are to be published once what a view hears its link for has come.
fn votes_for(goal: Goal) -> u32
    ensures { result ≡ votes_for goal }
{
    match goal {
        Goal::Join(_) => 0,
        Goal::Reach(_) => 0,
        Goal::Settle => 0,
        Goal::Snap => 0,
        Goal::CatchUp => 0,
        Goal::See(_) => 1,
    }
}

/// A view that is told one thing at a time.
///
/// It holds its replica, what it watches, and the lines that came and were not begun. Once memory was wanted it answers so until a link
/// is there again: then it joins for a world made anew, sends what is not acknowledged once more, and prints `settled`.
#[derive(Drop)]
pub struct LiveView {
    pub(crate) watcher: Watcher,
    queue: Queue,
    pub(crate) place: Place,
    closed: bool,
    count: u64,
    holds: u64,
    joined: Option<u32>,
    pub(crate) lost: bool,
}

impl LiveView {
    /// A view of a session, by its number, which is not 0. It wants a link. Fails for want of memory alone.
    pub fn found(
        alloc: Global,
        program: Arc<Checked, Global>,
        id: SessionId,
        view: u32,
    ) -> Result<LiveView, WantOfMemory>
        ensures live { IfOk result (λ live. IsLive live) }
        ensures first { (address : List ℕ)
            → IfOk result (λ live. live_state address live
            ≡ first_state (founding_of (arc_value program)) id.0 view address) }
    {
        let own = program.clone()?;
        let replica = Replica::found(alloc, own, id, view)?;
        let topics = ViewTopics::new(alloc);
        let queue = Queue::new(alloc);
        Ok(LiveView {
            watcher: Watcher {
                alloc,
                program,
                id,
                view,
                replica,
                published: 0,
                topics,
                receives: 0,
                quiets: 0,
            },
            queue,
            place: Place::Unlinked(How::Fresh),
            closed: false,
            count: 0,
            holds: 0,
            joined: None,
            lost: false,
        })
    }

    /// What the view wants next. Takes no memory.
    pub fn wanted(&self) -> LiveWant
        ensures { (address : List ℕ) → result ≡ wanted (live_state address self.now).phase }
    {
        match self.place {
            Place::Unlinked(_) => LiveWant::Link,
            Place::Hears(_) => LiveWant::Input,
            Place::Gone(end) => LiveWant::Over(end),
        }
    }

    /// How many links more the view makes again.
    pub fn holds(&self) -> u64
        ensures { (address : List ℕ) → result ≡ (live_state address self.now).holds }
    {
        self.holds
    }

    /// Tells the view one thing, and answers what it does: the frames that are to be sent, and then the text that is to be printed.
    ///
    /// It joins on a link that is there. A line that comes waits until those before it are done; one that is no line, is longer than
    /// 65,536 bytes, or would publish event 1,048,577, prints `bad-line N`, where N counts the lines that came, and does nothing. With no
    /// line left the view hears its link, and leaves once no line will come. What it does not want now does nothing.
    ///
    /// A link that is gone, or that was not made, ends the view. After a line `hold N`, which waits for none before it, the view wants
    /// another link in its place, N times in all. There it goes on behind the entries that it has, prints `rejoined`, and does the line
    /// anew that was at work.
    ///
    /// # Errors
    ///
    /// Once memory was wanted each call answers so, until a link is there.
    pub fn step(&mut self, input: &LiveInput) -> Result<LiveOutcome, WantOfMemory>
        requires live { IsLive self.old }
        ensures live { IsLive self.new }
        ensures ok { (address : List ℕ)
            → IfOk result (λ out. told_by address out self.new ≡ live_step (live_state address self.old) input.now) }
        ensures err { OnErr result (IsLost self.new self.old input.now) }
        ensures wants { self.old.lost ≡ true → (input.now ≡ tells.Linked → ⊥) → OnOk result ⊥ }
    {
        let mut out = LiveOutcome::new(self.watcher.alloc);
        match self.told(input, &mut out) {
            Ok(()) => {
                let here = self.arrive();
                out.here = here;
                Ok(out)
            }
            Err(WantOfMemory) => {
                self.lose();
                Err(WantOfMemory)
            }
        }
    }

    /// What a step does at one thing that is told.
    fn told(&mut self, input: &LiveInput, out: &mut LiveOutcome) -> Result<(), WantOfMemory>
        requires live { IsLive self.old }
        ensures live { OnOk result (IsLive self.new) }
        ensures knows { KnowsItself self.new.watcher }
        ensures closed { self.new.closed ≡ closes self.old.closed input.now }
        ensures count { self.new.count ≡ counts self.old.count input.now }
        ensures whole { OnOk result (self.new.lost ≡ false) }
        ensures wants { self.old.lost ≡ true → (input.now ≡ tells.Linked → ⊥) → OnOk result ⊥ }
        ensures holds { (address : List ℕ)
            → OnOk result (self.new.holds ≡ holds_after (live_state address self.old) input.now) }
        ensures held { OnErr result (self.new.holds ≡ self.old.holds) }
        ensures joined { (address : List ℕ)
            → OnOk result (self.new.joined ≡ joined_in input.now (live_state address self.old).phase self.old.joined) }
        ensures told { (address : List ℕ)
            → OnOk result (Tells out.old out.new (phase_step (live_state address self.old) input.now)
            (live_state address self.new).phase) }
    {
        match input {
            LiveInput::Linked => self.link(out),
            LiveInput::LinkFailed => self.miss_link(),
            LiveInput::Says(heard) => self.hear(heard, out),
            LiveInput::Line(bytes) => self.take_line(bytes, out),
            LiveInput::Closed => self.close(out),
        }
    }

    /// A link is there.
    fn link(&mut self, out: &mut LiveOutcome) -> Result<(), WantOfMemory>
        requires live { IsLive self.old }
        ensures live { OnOk result (IsLive self.new) }
        ensures knows { KnowsItself self.new.watcher }
        ensures kept { self.new ≡ record self.old {
          watcher = self.new.watcher;
          queue = self.new.queue;
          place = self.new.place;
          lost = self.new.lost;
        } }
        ensures whole { OnOk result (self.new.lost ≡ false) }
        ensures told { (address : List ℕ)
            → OnOk result (Tells out.old out.new
            (link_step self.old.closed (revived self.old.lost (live_state address self.old).phase))
            (live_state address self.new).phase) }
    {
        match self.place {
            Place::Unlinked(how) => self.enter(how, out),
            Place::Hears(_) => Ok(()),
            Place::Gone(_) => Ok(()),
        }
    }

    /// A view whose memory ran out forgets its lines, and sends what is not acknowledged once more.
    fn revive(&mut self) -> Result<(), WantOfMemory>
        requires live { IsLive self.old }
        ensures kept { self.new ≡ record self.old { queue = self.new.queue } }
        ensures lines { OnOk result (HasLines self.new.watcher.published self.new.queue) }
        ensures left { OnOk result (left self.new ≡ lines_kept self.old.lost (left self.old)) }
    {
        if self.lost {
            return self.queue.settle();
        }
        Ok(())
    }

    /// Joins on a link that is there.
    fn enter(&mut self, how: How, out: &mut LiveOutcome) -> Result<(), WantOfMemory>
        requires live { IsLive self.old }
        ensures live { OnOk result (IsLive self.new) }
        ensures knows { KnowsItself self.new.watcher }
        ensures kept { self.new ≡ record self.old {
          watcher = self.new.watcher;
          queue = self.new.queue;
          place = self.new.place;
          lost = self.new.lost;
        } }
        ensures whole { OnOk result (self.new.lost ≡ false) }
        ensures told { (address : List ℕ)
            → OnOk result (Tells out.old out.new
            (drives self.old.closed (enter_session
            (viewer address self.old.watcher (lines_kept self.old.lost (left self.old))) how))
            (live_state address self.new).phase) }
    {
        self.revive()?;
        join(&mut self.watcher, out, how)?;
        self.place = Place::Hears(Goal::Join(how));
        self.lost = false;
        Ok(())
    }

    /// The link said this.
    fn hear(&mut self, heard: &Heard, out: &mut LiveOutcome) -> Result<(), WantOfMemory>
        requires live { IsLive self.old }
        ensures live { OnOk result (IsLive self.new) }
        ensures knows { KnowsItself self.new.watcher }
        ensures kept { self.new ≡ record self.old {
          watcher = self.new.watcher;
          queue = self.new.queue;
          place = self.new.place;
          holds = self.new.holds;
          joined = self.new.joined;
        } }
        ensures whole { OnOk result (self.new.lost ≡ false) }
        ensures holds { (address : List ℕ)
            → OnOk result (self.new.holds
            ≡ one_fewer (is_held self.old.holds (live_state address self.old).phase (tells.Says heard.now))
            self.old.holds) }
        ensures held { OnErr result (self.new.holds ≡ self.old.holds) }
        ensures joined { (address : List ℕ)
            → OnOk result (self.new.joined
            ≡ joined_in (tells.Says heard.now) (live_state address self.old).phase self.old.joined) }
        ensures told { (address : List ℕ)
            → OnOk result (Tells out.old out.new
            (heard_step self.old.closed self.old.holds (live_state address self.old).phase heard.now)
            (live_state address self.new).phase) }
    {
        if self.lost {
            return Err(WantOfMemory);
        }
        match self.place {
            Place::Unlinked(_) => Ok(()),
            Place::Hears(goal) => self.hear_link(goal, heard, out),
            Place::Gone(_) => Ok(()),
        }
    }

    /// Whether the view holds on, where its link said this.
    fn holds_on(&self, heard: &Heard) -> bool
        requires ready { IsReady self.now.watcher }
        ensures held { (address : List ℕ)
            → result ≡ holds_on self.now.holds (viewer address self.now.watcher (left self.now)) heard.now }
        ensures many { IsTrue result → 0 < self.now.holds }
    {
        if self.holds > 0 {
            return link_ends(&self.watcher, heard);
        }
        false
    }

    /// The link that the view hears for this said that: it holds on, or goes on.
    fn hear_link(
        &mut self,
        goal: Goal,
        heard: &Heard,
        out: &mut LiveOutcome,
    ) -> Result<(), WantOfMemory>
        requires live { IsLive self.old }
        requires ready { IsReady self.old.watcher }
        requires whole { self.old.lost ≡ false }
        requires lines { HasLines (self.old.watcher.published + votes_for goal) self.old.queue }
        ensures live { OnOk result (IsLive self.new) }
        ensures knows { KnowsItself self.new.watcher }
        ensures kept { self.new ≡ record self.old {
          watcher = self.new.watcher;
          queue = self.new.queue;
          place = self.new.place;
          holds = self.new.holds;
          joined = self.new.joined;
        } }
        ensures holds { (address : List ℕ)
            → OnOk result (self.new.holds
            ≡ one_fewer (holds_on self.old.holds (viewer address self.old.watcher (left self.old)) heard.now)
            self.old.holds) }
        ensures held { OnErr result (self.new.holds ≡ self.old.holds) }
        ensures joined { OnOk result (self.new.joined ≡ entry_or (entry_in (aim_of goal) heard.now) self.old.joined) }
        ensures told { (address : List ℕ)
            → OnOk result (Tells out.old out.new
            (heard_by (holds_on self.old.holds (viewer address self.old.watcher (left self.old)) heard.now)
            self.old.closed (viewer address self.old.watcher (left self.old)) (aim_of goal) heard.now)
            (live_state address self.new).phase) }
    {
        if self.holds_on(heard) {
            return self.hold_on(goal);
        }
        self.hear_for(goal, heard, out)
    }

    /// The line that was at work is left before the others.
    fn put_back(&mut self, goal: Goal) -> Result<(), WantOfMemory>
        requires lines { HasLines (self.old.watcher.published + votes_for goal) self.old.queue }
        ensures kept { self.new ≡ record self.old { queue = self.new.queue } }
        ensures lines { OnOk result (HasLines self.new.watcher.published self.new.queue) }
        ensures left { OnOk result (left self.new ≡ line_again (aim_of goal) ++ left self.old) }
    {
        match goal {
            Goal::Join(_) => Ok(()),
            Goal::Reach(time) => {
                let time = time.min(TIME_LIMIT - 1);
                self.queue.put_first(ViewLine::Wait { time }, 0)
            }
            Goal::Settle => self.queue.put_first(ViewLine::Settle, 0),
            Goal::CatchUp => Ok(()),
            Goal::Snap => self.queue.put_first(ViewLine::Snap, 0),
            Goal::See(at) => self.queue.put_first(ViewLine::Vote { at }, 1),
        }
    }

    /// The link is gone that the view heard for this: it wants another one.
    fn hold_on(&mut self, goal: Goal) -> Result<(), WantOfMemory>
        requires live { IsLive self.old }
        requires whole { self.old.lost ≡ false }
        requires many { 0 < self.old.holds }
        requires lines { HasLines (self.old.watcher.published + votes_for goal) self.old.queue }
        ensures live { OnOk result (IsLive self.new) }
        ensures kept { self.new ≡ record self.old {
          queue = self.new.queue;
          place = self.new.place;
          holds = self.new.holds;
        } }
        ensures holds { OnOk result (self.new.holds ≡ one_fewer true self.old.holds) }
        ensures held { OnErr result (self.new.holds ≡ self.old.holds) }
        ensures told { (address : List ℕ) (out : LiveOutcome)
            → OnOk result (Tells out out
            (waits (held_on (viewer address self.old.watcher (left self.old)) (aim_of goal)))
            (live_state address self.new).phase) }
    {
        self.put_back(goal)?;
        self.place = Place::Unlinked(join_behind(goal));
        self.holds -= 1;
        Ok(())
    }

    /// No link was made: the view ends, unless it holds on.
    fn miss_link(&mut self) -> Result<(), WantOfMemory>
        requires live { IsLive self.old }
        ensures live { OnOk result (IsLive self.new) }
        ensures knows { KnowsItself self.new.watcher }
        ensures kept { self.new ≡ record self.old { place = self.new.place; holds = self.new.holds } }
        ensures whole { OnOk result (self.new.lost ≡ false) }
        ensures holds { (address : List ℕ)
            → OnOk result (self.new.holds
            ≡ one_fewer (is_held self.old.holds (live_state address self.old).phase tells.LinkFailed) self.old.holds) }
        ensures held { OnErr result (self.new.holds ≡ self.old.holds) }
        ensures told { (address : List ℕ)
            → OnOk result ((live_state address self.new).phase
            ≡ unlinked_by (nat_lt 0 self.old.holds) (live_state address self.old).phase) }
    {
        if self.lost {
            return Err(WantOfMemory);
        }
        match self.place {
            Place::Unlinked(_) => {
                if self.holds > 0 {
                    self.holds -= 1;
                    return Ok(());
                }
                self.place = Place::Gone(ViewEnd::NetFault);
                Ok(())
            }
            Place::Hears(_) => Ok(()),
            Place::Gone(_) => Ok(()),
        }
    }

    /// The link that the view hears for this said that.
    fn hear_for(
        &mut self,
        goal: Goal,
        heard: &Heard,
        out: &mut LiveOutcome,
    ) -> Result<(), WantOfMemory>
        requires live { IsLive self.old }
        requires ready { IsReady self.old.watcher }
        requires whole { self.old.lost ≡ false }
        requires lines { HasLines (self.old.watcher.published + votes_for goal) self.old.queue }
        ensures live { OnOk result (IsLive self.new) }
        ensures knows { KnowsItself self.new.watcher }
        ensures kept { self.new ≡ record self.old {
          watcher = self.new.watcher;
          queue = self.new.queue;
          place = self.new.place;
          joined = self.new.joined;
        } }
        ensures joined { OnOk result (self.new.joined ≡ entry_or (entry_in (aim_of goal) heard.now) self.old.joined) }
        ensures told { (address : List ℕ)
            → OnOk result (Tells out.old out.new
            (drives self.old.closed (hears (viewer address self.old.watcher (left self.old)) (aim_of goal) heard.now))
            (live_state address self.new).phase) }
    {
        let joined = joined_as(self.watcher.alloc, goal, heard)?;
        let place = hear(&mut self.watcher, out, goal, heard)?;
        let entry = or_joined(joined, self.joined);
        self.joined = entry;
        self.go_to(place, out)
    }

    /// A line is done, and those that are left are done; or the view waits.
    fn go_to(&mut self, place: Option<Place>, out: &mut LiveOutcome) -> Result<(), WantOfMemory>
        requires knows { KnowsItself self.old.watcher }
        requires ready { IsReadyAt place self.old.watcher }
        requires lines { HasLines (self.old.watcher.published + votes_of place) self.old.queue }
        requires whole { self.old.lost ≡ false }
        ensures live { OnOk result (IsLive self.new) }
        ensures knows { KnowsItself self.new.watcher }
        ensures kept { self.new ≡ record self.old {
          watcher = self.new.watcher;
          queue = self.new.queue;
          place = self.new.place;
        } }
        ensures told { (address : List ℕ)
            → OnOk result (Tells out.old out.new
            (came (λ v. goes_on self.old.closed v) (viewer address self.old.watcher (left self.old)) place)
            (live_state address self.new).phase) }
    {
        match place {
            None => self.advance(out),
            Some(place) => {
                self.place = place;
                Ok(())
            }
        }
    }

    /// The lines that are left are done, up to where one waits.
    fn advance(&mut self, out: &mut LiveOutcome) -> Result<(), WantOfMemory>
        requires ready { IsReady self.old.watcher }
        requires lines { HasLines self.old.watcher.published self.old.queue }
        requires whole { self.old.lost ≡ false }
        ensures live { OnOk result (IsLive self.new) }
        ensures knows { KnowsItself self.new.watcher }
        ensures kept { self.new ≡ record self.old {
          watcher = self.new.watcher;
          queue = self.new.queue;
          place = self.new.place;
        } }
        ensures told { (address : List ℕ)
            → OnOk result (Tells out.old out.new
            (goes_on self.old.closed (viewer address self.old.watcher (left self.old)))
            (live_state address self.new).phase) }
    {
        let stopped = do_lines(&mut self.watcher, out, self.queue.left(), self.closed)?;
        self.queue.begin(stopped.count);
        self.place = stopped.place;
        Ok(())
    }

    /// Whether the view rests: no line is at work.
    fn rests(&self) -> bool
        ensures { (address : List ℕ) → result ≡ rests (live_state address self.now).phase }
    {
        match self.place {
            Place::Unlinked(_) => false,
            Place::Hears(goal) => match goal {
                Goal::Join(_) => false,
                Goal::Reach(_) => false,
                Goal::Settle => false,
                Goal::CatchUp => has_caught_up(&self.watcher.replica),
                Goal::Snap => false,
                Goal::See(_) => false,
            },
            Place::Gone(_) => false,
        }
    }

    /// A view that rests does the lines that are left, or leaves.
    fn wake(&mut self, out: &mut LiveOutcome) -> Result<(), WantOfMemory>
        requires live { IsLive self.old }
        requires whole { self.old.lost ≡ false }
        ensures live { OnOk result (IsLive self.new) }
        ensures knows { KnowsItself self.new.watcher }
        ensures kept { self.new ≡ record self.old {
          watcher = self.new.watcher;
          queue = self.new.queue;
          place = self.new.place;
        } }
        ensures told { (address : List ℕ)
            → OnOk result (Tells out.old out.new (wakes self.old.closed (live_state address self.old).phase)
            (live_state address self.new).phase) }
    {
        if self.rests() {
            return self.advance(out);
        }
        Ok(())
    }

    /// No line will come.
    fn close(&mut self, out: &mut LiveOutcome) -> Result<(), WantOfMemory>
        requires live { IsLive self.old }
        ensures live { OnOk result (IsLive self.new) }
        ensures knows { KnowsItself self.new.watcher }
        ensures kept { self.new ≡ record self.old {
          watcher = self.new.watcher;
          queue = self.new.queue;
          place = self.new.place;
          closed = true;
        } }
        ensures whole { OnOk result (self.new.lost ≡ false) }
        ensures told { (address : List ℕ)
            → OnOk result (Tells out.old out.new (wakes true (live_state address self.old).phase)
            (live_state address self.new).phase) }
    {
        self.closed = true;
        if self.lost {
            return Err(WantOfMemory);
        }
        self.wake(out)
    }

    /// A line came.
    fn take_line(&mut self, bytes: &Blob, out: &mut LiveOutcome) -> Result<(), WantOfMemory>
        requires live { IsLive self.old }
        ensures live { OnOk result (IsLive self.new) }
        ensures knows { KnowsItself self.new.watcher }
        ensures kept { self.new ≡ record self.old {
          watcher = self.new.watcher;
          queue = self.new.queue;
          place = self.new.place;
          count = self.new.count;
          holds = self.new.holds;
        } }
        ensures count { self.new.count ≡ one_more self.old.count }
        ensures whole { OnOk result (self.new.lost ≡ false) }
        ensures holds { (address : List ℕ)
            → OnOk result (self.new.holds ≡ holds_by self.old.closed (viewer_of (live_state address self.old).phase)
            (read_line bytes.now) self.old.holds) }
        ensures held { OnErr result (self.new.holds ≡ self.old.holds) }
        ensures told { (address : List ℕ)
            → OnOk result (Tells out.old out.new
            (line_step self.old.closed (one_more self.old.count) (live_state address self.old).phase
            (read_line bytes.now)) (live_state address self.new).phase) }
    {
        let count = one_more(self.count);
        self.count = count;
        if self.lost {
            return Err(WantOfMemory);
        }
        let closed = self.closed;
        if closed {
            return Ok(());
        }
        if self.is_gone() {
            return Ok(());
        }
        let said = read_line(self.watcher.alloc, bytes)?;
        self.take_said(said, out)
    }

    /// Whether the view has ended.
    fn is_gone(&self) -> bool
        ensures { (address : List ℕ) → result ≡ is_over (live_state address self.now).phase }
    {
        match self.place {
            Place::Unlinked(_) => false,
            Place::Hears(_) => false,
            Place::Gone(_) => true,
        }
    }

    /// What a line said is done or put behind the others, or noted.
    fn take_said(&mut self, said: Said, out: &mut LiveOutcome) -> Result<(), WantOfMemory>
        requires live { IsLive self.old }
        requires whole { self.old.lost ≡ false }
        requires open { self.old.closed ≡ false }
        requires fit { AreFit said }
        ensures live { OnOk result (IsLive self.new) }
        ensures knows { KnowsItself self.new.watcher }
        ensures kept { self.new ≡ record self.old {
          watcher = self.new.watcher;
          queue = self.new.queue;
          place = self.new.place;
          holds = self.new.holds;
        } }
        ensures holds { (address : List ℕ) (v : Viewer) → viewer_of (live_state address self.old).phase ≡ Some v
            → OnOk result (self.new.holds ≡ holds_by false (Some v) (says said) self.old.holds) }
        ensures held { OnErr result (self.new.holds ≡ self.old.holds) }
        ensures told { (address : List ℕ) (v : Viewer) → viewer_of (live_state address self.old).phase ≡ Some v
            → OnOk result (Tells out.old out.new
            (line_at self.old.count (Some v) (live_state address self.old).phase (says said))
            (live_state address self.new).phase) }
    {
        match said {
            Said::Nothing => tell_bad_line(self.watcher.alloc, out, self.count),
            Said::Lines(lines) => self.put_lines(lines, out),
            Said::Holds(holds) => {
                self.holds = holds;
                Ok(())
            }
        }
    }

    /// How many events were published, or are to be by the vote that is at work and by the lines that are left.
    fn taken(&self) -> usize
        requires { IsLive self.now }
        ensures count { result ≡ self.now.watcher.published + votes_of (Some self.now.place)
            + publish_count_of (left self.now) }
        ensures few { result ≤ most_publishes }
    {
        let votes = votes_at(self.place);
        (self.watcher.published + votes) as usize + self.queue.publishes()
    }

    /// Lines are left behind the others, unless they publish one event too many.
    fn put_lines(&mut self, more: Vec<ViewLine>, out: &mut LiveOutcome) -> Result<(), WantOfMemory>
        requires live { IsLive self.old }
        requires whole { self.old.lost ≡ false }
        requires open { self.old.closed ≡ false }
        requires fit { AllByRecursion LineFits (plain_lines more.items) }
        ensures live { OnOk result (IsLive self.new) }
        ensures knows { KnowsItself self.new.watcher }
        ensures kept { self.new ≡ record self.old {
          watcher = self.new.watcher;
          queue = self.new.queue;
          place = self.new.place;
        } }
        ensures told { (address : List ℕ) (v : Viewer) → viewer_of (live_state address self.old).phase ≡ Some v
            → OnOk result (Tells out.old out.new
            (line_at self.old.count (Some v) (live_state address self.old).phase (Lines (plain_lines more.items)))
            (live_state address self.new).phase) }
    {
        let publishes = publish_count(&more);
        let taken = self.taken();
        let room = MOST_PUBLISHES - taken;
        if publishes > room {
            return tell_bad_line(self.watcher.alloc, out, self.count);
        }
        self.queue.put(more, publishes)?;
        self.wake(out)
    }

    /// Whether the view has come to the entry by which it joined.
    fn has_arrived(&self) -> bool
        ensures { (address : List ℕ) → result ≡ has_arrived (live_state address self.now).phase self.now.joined }
    {
        match self.place {
            Place::Unlinked(_) => false,
            Place::Hears(_) => match self.joined {
                Some(joined) => joined <= seen_of(&self.watcher.replica),
                None => false,
            },
            Place::Gone(_) => false,
        }
    }

    /// The entry that is awaited from now on: none where the view has come to it, or hears no link.
    fn awaited(&self, arrived: bool) -> Option<u32>
        ensures { (address : List ℕ) → result ≡ awaited arrived (live_state address self.now).phase self.now.joined }
    {
        if arrived {
            return None;
        }
        match self.place {
            Place::Unlinked(_) => None,
            Place::Hears(_) => self.joined,
            Place::Gone(_) => None,
        }
    }

    /// Whether the view has come to the entry by which it joined. Then it is awaited no more, and so where it hears no link.
    fn arrive(&mut self) -> bool
        ensures here { (address : List ℕ) → result ≡ has_arrived (live_state address self.old).phase self.old.joined }
        ensures kept { (address : List ℕ)
            → self.new ≡ record self.old {
              joined = awaited result
                  (live_state address self.old).phase self.old.joined;
            } }
    {
        let arrived = self.has_arrived();
        let joined = self.awaited(arrived);
        self.joined = joined;
        arrived
    }

    /// Memory was wanted: the view wants a link, on which it joins for a world made anew, and no line is left.
    pub(crate) fn lose(&mut self)
        requires knows { KnowsItself self.old.watcher }
        ensures live { IsLive self.new }
        ensures kept { self.new ≡ record self.old {
          queue = self.new.queue;
          place = Place.Unlinked How.Fresh;
          joined = None;
          lost = true;
        } }
    {
        // A view published no more events than a view may.
        tell_few(&self.watcher.replica); // for the prover
        self.queue.clear();
        self.place = Place::Unlinked(How::Fresh);
        self.joined = None;
        self.lost = true;
    }
}
