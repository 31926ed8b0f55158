//! A table of resends.
ghost use Rattle.std.specs.Prelude.{◌≡◌, ◌≢◌, ◌+◌, ◌<◌, ◌≤◌, ◌&&◌, ◌==◌, ℕ, Some, None, if◌then◌else◌};
ghost use Rattle.tea_base.specs.Limits.{most_entries};
ghost use Rattle.indexmap.specs.IndexMap.{Updates, get as at_key, spare as room_of};
ghost use Rattle.resend_table.specs.Stands.{is_event_kind, seq_in};

use crate::stand::{Kind, Stand, here_count_after, here_count_before};
use indexmap::IndexMap;
use std::alloc::Global;
use std::hash::Hash;
use tea_base::WantOfMemory;

/// What is known of the entries that were noted, in the order in which they were: how each view stands, how many are
/// here, and the seq of each Event by its view and number. Contracts say it by `HasNoted`, over the list of them. Each
/// call but `reserve` takes no memory, and goes through no list: it looks up a key by its hash.
#[derive(Drop)]
pub struct Resend {
    stands: IndexMap<u32, Stand>,
    // by a view and the number of its Event
    seqs: IndexMap<(u32, u32), u32>,
    here_count: u32,
    // for how many entries both maps have room
    spare: u32,
    ghost stands_have_room: { spare ≤ room_of stands },
    ghost seqs_have_room: { spare ≤ room_of seqs },
}

/// Puts a value at a key, where there is room.
fn put<K: Eq + Hash + Drop, V: Drop>(map: &mut IndexMap<K, V>, key: K, value: V)
    requires { 0 < room_of map.old }
    ensures updates { Updates K.eq map.old map.new key (Some value) }
    ensures room { room_of map.old ≤ room_of map.new + 1 }
{
    match map.insert(key, value) {
        Ok(_) => {}
        Err(_) => unreachable!(),
    }
}

/// Puts a value at a key that has one.
fn replace<K: Eq + Hash + Drop, V: Drop>(map: &mut IndexMap<K, V>, key: K, value: V)
    ensures updates { at_key K.eq map.old key ≢ None → Updates K.eq map.old map.new key (Some value) }
    ensures room { room_of map.old ≤ room_of map.new + 1 }
{
    match map.insert(key, value) {
        Ok(_) => {}
        // only a key that is not there wants memory
        Err(_) => {}
    }
}

/// Puts the seq of an entry at its view and the number of its Event, if it is one.
fn put_seq(seqs: &mut IndexMap<(u32, u32), u32>, view: u32, last: u32, seq: u32, kind: Kind)
    requires { 0 < room_of seqs.old }
    ensures seqs { last < most_entries → (v number : ℕ) → seq_in seqs.new v number ≡
        (if is_event_kind kind && (view == v && last + 1 == number) then Some seq
        else seq_in seqs.old v number) }
    ensures room { room_of seqs.old ≤ room_of seqs.new + 1 }
{
    match kind {
        Kind::Join | Kind::Exit => {}
        Kind::Event => put(seqs, (view, last.saturating_add(1)), seq),
    }
}

/// Takes away the seq of a view's Event, if the entry is one, before which `last` were sent.
fn remove_seq(seqs: &mut IndexMap<(u32, u32), u32>, view: u32, last: u32, kind: Kind)
    ensures seqs { last < most_entries → (v number : ℕ) → seq_in seqs.new v number ≡
        (if is_event_kind kind && (view == v && last + 1 == number) then None
        else seq_in seqs.old v number) }
    ensures room { room_of seqs.old ≤ room_of seqs.new }
{
    match kind {
        Kind::Join | Kind::Exit => {}
        Kind::Event => {
            let _ = seqs.swap_remove(&(view, last.saturating_add(1)));
        }
    }
}

impl Resend {
    ghost use Rattle.std.specs.Prelude.{List, [], ◌∷◌, ◌++◌, length, option_map, IsOk, OnOk, OnErr};
    ghost use Rattle.tea_base.specs.declared.entry.Entry.{Entry};
    ghost use Rattle.tea_base.specs.Readings.{current, is_here, last_number, here_count, view_event};
    ghost use Rattle.resend_table.specs.Stands.{IsNotedAs, stand_of};
    ghost use Rattle.resend_table.specs.Noted.{HasNoted, KeepsNoted, stand_at, spare_of};

    /// The table that noted nothing, without room. Takes no memory.
    pub fn new(alloc: Global) -> Resend
        ensures noted { HasNoted result [] }
        ensures spare { spare_of result ≡ 0 }
    {
        Resend {
            stands: IndexMap::new(alloc),
            seqs: IndexMap::new(alloc),
            here_count: 0,
            spare: 0,
        }
    }

    /// Makes room for at least so many more entries. Room that is there already is kept, and needs no memory.
    pub fn reserve(&mut self, entries: u32) -> Result<(), WantOfMemory>
        ensures same { KeepsNoted self.old self.new }
        ensures entries { OnOk result (entries ≤ spare_of self.new) }
        ensures kept { spare_of self.old ≤ spare_of self.new }
        ensures succeeds { entries ≤ spare_of self.old → IsOk result }
        ensures err { OnErr result (spare_of self.new ≡ spare_of self.old) }
    {
        if entries <= self.spare {
            return Ok(());
        }
        self.stands.reserve(entries as usize)?;
        self.seqs.reserve(entries as usize)?;
        self.spare = entries;
        Ok(())
    }

    /// For how many more entries there is room.
    pub fn spare(&self) -> u32
        ensures { result ≡ spare_of self.now }
    {
        self.spare
    }

    /// Notes one more entry, of which it takes the seq, the view and what kind it is of. Uses up the room of one. More
    /// entries than a log may have are not told of.
    pub fn note(&mut self, seq: u32, view: u32, kind: Kind)
        requires { 0 < spare_of self.old }
        ensures noted { (log : List Entry) → (entry : Entry) → HasNoted self.old log →
            length log < most_entries → IsNotedAs seq view kind entry →
            HasNoted self.new (log ++ entry ∷ []) }
        ensures spare { spare_of self.new + 1 ≡ spare_of self.old }
    {
        let stand = self.stand(view);
        put_seq(&mut self.seqs, view, stand.last, seq, kind);
        put(&mut self.stands, view, stand.after(seq, kind));
        self.here_count = here_count_after(self.here_count, stand.here, kind);
        self.spare -= 1;
    }

    /// Forgets the entry that was noted last. It takes of it what `note` took, and how its view stood before it. Takes no
    /// memory, and gives none back: the room for one entry is gone.
    pub fn forget(&mut self, seq: u32, view: u32, kind: Kind, stand: Stand)
        requires { 0 < seq }
        ensures noted { (log : List Entry) → (entry : Entry) → HasNoted self.old (log ++ entry ∷ []) →
            length log < most_entries → IsNotedAs seq view kind entry → stand ≡ stand_of log view →
            HasNoted self.new log }
    {
        let Stand { last, here, .. } = stand;
        remove_seq(&mut self.seqs, view, last, kind);
        replace(&mut self.stands, view, stand);
        self.here_count = here_count_before(self.here_count, here, kind);
        self.spare = self.spare.saturating_sub(1);
    }

    /// How a view stands.
    fn stand(&self, view: u32) -> Stand
        ensures { result ≡ stand_at self.now view }
    {
        match self.stands.get(&view) {
            Some(stand) => *stand,
            None => Stand::absent(),
        }
    }

    /// The seq of the last Join or Exit of a view, 0 if there is none.
    pub fn current(&self, view: u32) -> u32
        ensures { (log : List Entry) → HasNoted self.now log → result ≡ current log view }
    {
        self.stand(view).current
    }

    /// Whether a view is here: its last Join or Exit is a Join.
    pub fn here(&self, view: u32) -> bool
        ensures { (log : List Entry) → HasNoted self.now log → result ≡ is_here log view }
    {
        self.stand(view).here
    }

    /// How many Events a view sent, which is the number of the last one.
    pub fn last(&self, view: u32) -> u32
        ensures number { (log : List Entry) → HasNoted self.now log → result ≡ last_number log view }
        ensures bound { (log : List Entry) → HasNoted self.now log → result ≤ length log }
    {
        self.stand(view).last
    }

    /// How many views are here.
    pub fn here_count(&self) -> u32
        ensures { (log : List Entry) → HasNoted self.now log → result ≡ here_count log }
    {
        self.here_count
    }

    /// The seq of the Event of a view with a number, counted from 1, if there is one.
    pub fn seq_of(&self, view: u32, number: u32) -> Option<u32>
        ensures { (log : List Entry) → HasNoted self.now log → result ≡
            option_map (λ entry. entry.seq) (view_event log view number) }
    {
        self.seqs.get(&(view, number)).copied()
    }
}
