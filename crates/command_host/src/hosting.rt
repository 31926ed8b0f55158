//! Sessions that are to be hosted, and where each is put in the end.
ghost use Rattle.std.specs.Prelude.{◌≡◌, ◌≤◌, IfOk, length};
ghost use Rattle.command_outcome.specs.Outcome.{numbered_name};
ghost use Rattle.command_host.specs.Hosting.{log_names, numbered_names, on_demand_name, on_demand_names, rooms_for};
ghost use Rattle.id_claims.specs.Ids.{most_ids};

use command_outcome::numbered_name;
use command_reflect::LogPlace;
use command_words::ServingSpan;
use host_server::SessionIds;
use id_claims::MOST_IDS;
use session_log::Room;
use std::alloc::Global;
use std::collections::VecDeque;
use tea_base::{List, SessionId, Text, WantOfMemory};

/// Where sessions are put in the end, in the order of the sessions.
pub type LogPlaces = List<LogPlace>;

/// Memory for sessions that may be made on demand, each enough for the largest session.
pub type Rooms = List<Room>;

/// Sessions that are to be hosted.
#[derive(Drop)]
pub struct Hosting {
    /// The ids of the sessions that are listed.
    pub ids: SessionIds,
    /// Whether others are made on demand.
    pub on_demand: bool,
    /// The address at which the host listens.
    pub address: Text,
    /// How long it serves.
    pub span: ServingSpan,
    /// Where each listed session is put in the end.
    pub logs: LogPlaces,
    /// With what the names of the files begin.
    pub prefix: Text,
    /// Memory for each session that may be made on demand.
    pub rooms: Rooms,
}

/// The place of the session of this number. It takes the memory for the largest session.
fn log_place(alloc: Global, prefix: &Text, number: u64) -> Result<LogPlace, WantOfMemory>
    ensures { IfOk result (λ place. place.name ≡ numbered_name prefix.now number) }
{
    Ok(LogPlace {
        name: numbered_name(alloc, prefix, number)?,
        room: Room::new(alloc)?,
    })
}

/// The place of each session, under a name that ends in its number from 1 on. It takes the memory for the largest session, once for each.
pub fn log_places(
    alloc: Global,
    prefix: &Text,
    ids: &[SessionId],
) -> Result<LogPlaces, WantOfMemory>
    ensures { IfOk result (λ places. log_names places ≡ numbered_names prefix.now 1 ids.now) }
{
    let mut places = LogPlaces::new(alloc);
    for (place, _id) in ids.iter().enumerate() {
        places.push(log_place(alloc, prefix, place as u64 + 1)?)?;
    }
    Ok(places)
}

/// Memory for each session that may be made on demand, beside so many that are listed.
pub fn rooms_for(alloc: Global, on_demand: bool, listed: usize) -> Result<Rooms, WantOfMemory>
    requires { listed ≤ most_ids }
    ensures { IfOk result (λ rooms. length rooms ≡ rooms_for on_demand listed) }
{
    let mut rooms = Rooms::new(alloc);
    if on_demand {
        for _place in listed..MOST_IDS {
            rooms.push(Room::new(alloc)?)?;
        }
    }
    Ok(rooms)
}

/// The name of the session of this id, which was made on demand.
fn on_demand_name(alloc: Global, prefix: &Text, id: &SessionId) -> Result<Text, WantOfMemory>
    ensures { IfOk result (λ name. name ≡ on_demand_name prefix.now id.now) }
{
    let mut name = String::from_str(alloc, prefix.as_str())?;
    name.push_str(hex::encode(alloc, id.0.as_slice())?.as_str())?;
    Text::copy(alloc, name.as_str())
}

/// The place of each session that was made on demand, under a name that ends in its id, with memory that was taken before.
pub fn on_demand_places(
    alloc: Global,
    prefix: &Text,
    ids: &[SessionId],
    rooms: Rooms,
) -> Result<LogPlaces, WantOfMemory>
    requires { length ids.now ≤ length rooms }
    ensures { IfOk result (λ places. log_names places ≡ on_demand_names prefix.now ids.now) }
{
    let mut rooms = VecDeque::from(rooms.into_vec());
    let mut places = LogPlaces::new(alloc);
    for id in ids {
        let Some(room) = rooms.pop_front() else {
            unreachable!()
        };
        let name = on_demand_name(alloc, prefix, id)?;
        places.push(LogPlace { name, room })?;
    }
    Ok(places)
}
