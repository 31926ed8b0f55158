//! A second world of a view, which follows the frames of the view's links and tells what is counted in it.
ghost use Rattle.std.specs.Prelude.{◌<◌};
ghost use Rattle.tea_base.specs.Limits.{time_limit};

use crate::telling::{fault_line, handler_place, method_place, unheard_line};
use crate::worlds::world_of;
use model_solved::Checked;
use model_tree::Class;
use std::alloc::Global;
use std::sync::Arc;
use tea_base::{Entry, SessionId, TIME_LIMIT, WantOfMemory, What};
use wire_frames::{
    Base, ClientFrame, FrameFault, JOIN_TAG, ServerFrame, Want, read_client, read_server,
};
use world::{HeardEvent, RanMessage, World};
use world_lines::fault_word;

/// How many lines are told at most.
const MOST_TOLD: usize = 20;

/// How long the second world may work in all, in microseconds.
const MOST_WORK: u64 = 10_000_000;

/// How often each kind of fault was counted.
type Faults = [u64; 14];

/// A message or an entry that ran: at which time, in which place, and the counts before and after it.
#[derive(Drop)]
struct Step {
    time: u64,
    place: String,
    before: Faults,
    after: Faults,
}

/// A message that ran, with the counts before and after it.
#[derive(Drop)]
struct Turned {
    ran: RanMessage,
    before: Faults,
    after: Faults,
}

/// What came of an entry: the event that was heard, with the counts before and after it.
#[derive(Drop)]
struct Entered {
    heard: Option<HeardEvent>,
    before: Faults,
    after: Faults,
}

/// A second world of a view. It takes the frames that the view sends and hears, and tells of each kind of fault and each place the first that is
/// counted, and of each event of the view the first that no handler heard. It is given up once it has told twenty lines or has worked for ten
/// seconds, and where it is out of memory.
#[derive(Drop)]
pub struct WorldWatch {
    alloc: Global,
    program: Arc<Checked, Global>,
    id: SessionId,
    view: u32,
    world: Option<World>,
    /// Whether the view has asked to go on with the world that it has.
    resumes: bool,
    /// What was told, without its time.
    told: Vec<String>,
    /// How long it has worked, in microseconds.
    work: u64,
}

/// The name of the class of a number, nothing where there is none.
fn class_name(classes: &[Class], number: u16) -> &str {
    match classes.get(usize::from(number)) {
        Some(class) => class.name.as_str(),
        None => "",
    }
}

/// Runs the message of a world that is due first, if one is due up to a time.
fn turn_world(world: &mut Option<World>, until: u64) -> Result<Option<Turned>, WantOfMemory> {
    let Some(world) = world else {
        return Ok(None);
    };
    let before = world.faults();
    let Ok(ran) = world.turn(until) else {
        return Err(WantOfMemory);
    };
    let _published = world.take_out();
    Ok(match ran {
        Some(ran) => Some(Turned {
            ran,
            before,
            after: world.faults(),
        }),
        None => None,
    })
}

/// Handles an entry in a world, if there is one.
fn enter_world(world: &mut Option<World>, entry: &Entry) -> Result<Option<Entered>, WantOfMemory>
    requires { entry.now.time < time_limit }
{
    let Some(world) = world else {
        return Ok(None);
    };
    let before = world.faults();
    let Ok(heard) = world.enter(entry) else {
        return Err(WantOfMemory);
    };
    let _published = world.take_out();
    Ok(Some(Entered {
        heard,
        before,
        after: world.faults(),
    }))
}

impl WorldWatch {
    /// The watch of a view of a session, which has heard nothing yet.
    pub fn new(
        alloc: Global,
        program: Checked,
        id: SessionId,
        view: u32,
    ) -> Result<WorldWatch, WantOfMemory> {
        Ok(WorldWatch {
            alloc,
            program: Arc::new(alloc, program)?,
            id,
            view,
            world: None,
            resumes: false,
            told: Vec::new(alloc),
            work: 0,
        })
    }

    /// Whether it is given up.
    fn is_over(&self) -> bool {
        self.told.len() >= MOST_TOLD || self.work > MOST_WORK
    }

    /// Takes a frame that the view has sent.
    pub fn send(&mut self, frame: &[u8]) {
        if frame.first().copied().unwrap_or_default() != JOIN_TAG {
            return;
        }
        if let Ok(ClientFrame::Join { want, .. }) = read_client(self.alloc, frame) {
            self.resumes = matches!(want, Want::After(_));
        }
    }

    /// Takes a frame that the view has heard, and gives the lines that are to be told, each with its line end.
    pub fn hear(&mut self, frame: &[u8]) -> Result<String, WantOfMemory> {
        let mut lines = String::new(self.alloc);
        if self.is_over() {
            return Ok(lines);
        }
        match self.take(frame, &mut lines) {
            Ok(()) => Ok(lines),
            Err(WantOfMemory) => {
                // the world may lack what the frame brings
                self.give_up();
                Err(WantOfMemory)
            }
        }
    }

    /// Takes a frame that was heard.
    fn take(&mut self, frame: &[u8], lines: &mut String) -> Result<(), WantOfMemory> {
        match read_server(self.alloc, frame) {
            Ok(frame) => self.follow(&frame, lines)?,
            Err(FrameFault::BadFrame) => {}
            Err(FrameFault::WantOfMemory) => return Err(WantOfMemory),
        }
        if self.is_over() {
            self.give_up();
            lines.push_str("further faults and events are not told\n")?;
        }
        Ok(())
    }

    /// Lets the world go, and takes no further frame.
    fn give_up(&mut self) {
        self.world = None;
        self.work = u64::MAX;
    }

    /// Counts so many microseconds of work.
    pub fn note_work(&mut self, micros: u64) {
        self.work = self.work.saturating_add(micros);
    }

    fn follow(&mut self, frame: &ServerFrame, lines: &mut String) -> Result<(), WantOfMemory> {
        match frame {
            ServerFrame::Sync { base, .. } => self.begin(base, lines),
            ServerFrame::Recv(entry) => self.enter(entry, lines),
            ServerFrame::Tick(time) => self.run(*time, lines),
            ServerFrame::Done { .. }
            | ServerFrame::Snapped { .. }
            | ServerFrame::Refused { .. }
            | ServerFrame::Alive => Ok(()),
        }
    }

    /// The world begins, or goes on where the view has asked for that.
    fn begin(&mut self, base: &Option<Base>, lines: &mut String) -> Result<(), WantOfMemory> {
        if self.resumes {
            return Ok(());
        }
        self.world = None;
        match base {
            None => self.begin_first(lines),
            Some(base) => {
                self.world = world_of(self.alloc, &self.program, &self.id, base.bytes.bytes())?;
                Ok(())
            }
        }
    }

    /// The first world of the session, and the faults of the message with which it begins.
    fn begin_first(&mut self, lines: &mut String) -> Result<(), WantOfMemory> {
        let world = World::first(self.alloc, self.program.clone()?, self.id)?;
        let step = Step {
            time: 0,
            place: String::from_str(self.alloc, " in the method init of Root")?,
            before: [0; 14],
            after: world.faults(),
        };
        self.tell_faults(&step, lines)?;
        self.world = Some(world);
        Ok(())
    }

    /// Runs the messages that are due up to a time.
    fn run(&mut self, until: u64, lines: &mut String) -> Result<(), WantOfMemory> {
        for _ in 0..u64::MAX {
            match turn_world(&mut self.world, until)? {
                Some(turned) => self.tell_message(&turned, lines)?,
                None => break,
            }
        }
        Ok(())
    }

    /// Handles an entry of the log, once the messages that are due before it ran.
    fn enter(&mut self, entry: &Entry, lines: &mut String) -> Result<(), WantOfMemory> {
        if entry.time >= TIME_LIMIT {
            return Ok(());
        }
        self.run(entry.time, lines)?;
        match enter_world(&mut self.world, entry)? {
            Some(entered) => self.tell_entry(entry, &entered, lines),
            None => Ok(()),
        }
    }

    /// Tells the faults of a message.
    fn tell_message(&mut self, turned: &Turned, lines: &mut String) -> Result<(), WantOfMemory> {
        if turned.before == turned.after {
            return Ok(());
        }
        let class = class_name(self.program.program().classes(), turned.ran.class);
        let step = Step {
            time: turned.ran.time,
            place: method_place(self.alloc, class, &turned.ran)?,
            before: turned.before,
            after: turned.after,
        };
        self.tell_faults(&step, lines)
    }

    /// Tells the faults of an entry, and whether its event was heard.
    fn tell_entry(
        &mut self,
        entry: &Entry,
        entered: &Entered,
        lines: &mut String,
    ) -> Result<(), WantOfMemory> {
        if entered.before != entered.after {
            let step = Step {
                time: entry.time,
                place: handler_place(self.alloc, &entered.heard)?,
                before: entered.before,
                after: entered.after,
            };
            self.tell_faults(&step, lines)?;
        }
        self.tell_unheard(entry, &entered.heard, lines)
    }

    /// Tells each kind of fault whose count a step has raised, the first time in its place.
    fn tell_faults(&mut self, step: &Step, lines: &mut String) -> Result<(), WantOfMemory> {
        for number in 0..14 {
            if step.after[number] <= step.before[number] {
                continue;
            }
            let (kind, place) = (fault_word(number), step.place.as_str());
            let key = format!(in self.alloc; "{kind}{place}")?;
            if self.is_new(key)? {
                let line = fault_line(self.alloc, kind, place, step.time)?;
                lines.push_str(line.as_str())?;
            }
        }
        Ok(())
    }

    /// Tells an event of the view that no handler heard, the first time of its scope and name. Votes are for no handler.
    fn tell_unheard(
        &mut self,
        entry: &Entry,
        heard: &Option<HeardEvent>,
        lines: &mut String,
    ) -> Result<(), WantOfMemory> {
        let (Some(heard), What::Event { .. }) = (heard, &entry.what) else {
            return Ok(());
        };
        let is_vote = heard.scope.as_str() == "#vote";
        if entry.view != self.view || heard.handlers > 0 || is_vote {
            return Ok(());
        }
        let (scope, event) = (heard.scope.as_str(), heard.event.as_str());
        let key = format!(in self.alloc; "{scope}\n{event}")?;
        if self.is_new(key)? {
            let line = unheard_line(self.alloc, heard, entry.seq, entry.time)?;
            lines.push_str(line.as_str())?;
        }
        Ok(())
    }

    /// Whether this was not told before. It counts as told from then on.
    fn is_new(&mut self, key: String) -> Result<bool, WantOfMemory> {
        if self.is_over() {
            return Ok(false);
        }
        for told in &self.told {
            if told.as_str() == key.as_str() {
                return Ok(false);
            }
        }
        self.told.push(key)?;
        Ok(true)
    }
}
