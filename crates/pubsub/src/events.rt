//! The events of one scope.
ghost use Rattle.std.specs.Prelude.{◌≡◌, ◌<◌, ◌++◌, ◌∷◌, ℕ, [], List, length, IsTrue, OnOk, OnErr, true, false, bytes_eq, if◌then◌else◌};
ghost use Rattle.pubsub.specs.Index.{handlers_in, without_handler, without_handlers_of, AreHandled, AreHandledBut, AreTight, HasEvents};

use crate::handler::{Handler, remove_handler, remove_object};
use indexmap::IndexMap;
use std::alloc::Global;
use tea_base::WantOfMemory;
use world_plain::Subscription;

/// The handlers of the events of one scope. An event is named by UTF-8, and its handlers stand in the order in which
/// they came. An event without handlers has no entry.
#[derive(Drop)]
pub struct Events {
    alloc: Global,
    by_event: IndexMap<String, Vec<Handler>>,
}

impl Events {
    /// No handlers. Takes no memory.
    pub fn new(alloc: Global) -> Events
        ensures found { (event : List ℕ) → handlers_in result event ≡ [] }
        ensures handled { AreHandled result }
    {
        Events {
            alloc,
            by_event: IndexMap::new(alloc),
        }
    }

    /// Whether no event has a handler. Takes no memory.
    pub fn is_empty(&self) -> bool
        ensures found { IsTrue result → (event : List ℕ) → handlers_in self.now event ≡ [] }
        ensures some { result ≡ false → HasEvents self.now }
    {
        self.by_event.is_empty()
    }

    /// The handlers of an event. Takes no memory.
    pub fn find(&self, event: &str) -> &[Handler]
        ensures { result.now ≡ handlers_in self.now event.now }
    {
        match self.by_event.get(event) {
            Some(handlers) => handlers.as_slice(),
            None => &[],
        }
    }

    /// Adds a handler behind those of its event. Without memory it is dropped, and each event has the handlers it had.
    pub fn add(&mut self, event: &str, handler: Handler) -> Result<(), WantOfMemory>
        ensures ok { OnOk result ((e : List ℕ)
            → handlers_in self.new e ≡ (if bytes_eq event.now e then handlers_in self.old e ++ handler ∷ []
            else handlers_in self.old e)) }
        ensures err { OnErr result ((e : List ℕ) → handlers_in self.new e ≡ handlers_in self.old e) }
        ensures tight { OnOk result (AreHandled self.old → AreTight self.new) }
        ensures still { OnErr result (AreTight self.old → AreTight self.new) }
    {
        if let Some(handlers) = self.by_event.get_mut(event) {
            handlers.push(handler)?;
            return Ok(());
        }
        let mut first = Vec::new(self.alloc);
        first.push(handler)?;
        let name = String::from_str(self.alloc, event)?;
        self.by_event.insert(name, first)?;
        Ok(())
    }

    /// Takes the handler of a subscription away from those of an event. Takes no memory.
    pub fn remove(&mut self, event: &str, subscription: &Subscription)
        ensures found { (e : List ℕ)
            → handlers_in self.new e ≡ (if bytes_eq event.now e then without_handler subscription.now
            (handlers_in self.old e) else handlers_in self.old e) }
        ensures handled { AreHandled self.old → AreHandled self.new }
    {
        if let Some(handlers) = self.by_event.get_mut(event) {
            remove_handler(handlers, subscription);
        }
        self.forget_empty(event);
    }

    /// Takes the entry of an event away that has no handler left.
    fn forget_empty(&mut self, event: &str)
        ensures found { (e : List ℕ) → handlers_in self.new e ≡ handlers_in self.old e }
        ensures handled { AreHandledBut event.now self.old → AreHandled self.new }
    {
        if self.find(event).is_empty() {
            self.by_event.swap_remove(event);
        }
    }

    /// Takes the handlers of an object away from each event. Takes no memory.
    pub fn remove_object(&mut self, object: u32)
        ensures found { (e : List ℕ) → handlers_in self.new e ≡ without_handlers_of object (handlers_in self.old e) }
        ensures handled { AreHandled self.new }
    {
        // `len` is called for its clause that no two entries have one name.
        let _len = self.by_event.len(); // for the prover
        self.by_event.retain(
            |_event: &String, handlers: &mut Vec<Handler>| -> bool
                ensures left { handlers.new.items ≡ without_handlers_of object handlers.old.items }
                ensures gone { result ≡ false → handlers.new.items ≡ [] }
                ensures kept { result ≡ true → 0 < length handlers.new.items }
            {
                remove_object(handlers, object);
                !handlers.is_empty()
            },
        );
    }
}
