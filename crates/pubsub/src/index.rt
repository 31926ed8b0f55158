//! The index of subscriptions: by scope, and within it by event.
ghost use Rattle.std.specs.Prelude.{◌≡◌, ℕ, [], List, IsTrue, IfSome, OnOk, OnErr, true, false, encode_utf8_all};
ghost use Rattle.std.specs.Str.{all_scalars};
ghost use Rattle.std.specs.HashMap.{get_by_text};
ghost use Rattle.pubsub.specs.Index.{handlers_in, handlers_at, handlers_found, without_handlers_of, FindsSame, FindsMore, FindsLess, AreTight, HasEvents, IsTight, IsTightBut};

use crate::events::Events;
use crate::handler::{Handler, handler_of};
use indexmap::IndexMap;
use std::alloc::Global;
use tea_base::{Text, WantOfMemory};
use world_plain::Subscription;

/// An index from the scope and the event of a topic to its handlers, in the order in which they came. A look-up builds
/// no key. A scope without handlers has no entry.
#[derive(Drop)]
pub struct TopicIndex {
    alloc: Global,
    by_scope: IndexMap<String, Events>,
}

impl TopicIndex {
    /// No handlers. Takes no memory.
    pub fn new(alloc: Global) -> TopicIndex
        ensures found { (scope : List ℕ) → (event : List ℕ) → handlers_at result scope event ≡ [] }
        ensures tight { IsTight result }
    {
        TopicIndex {
            alloc,
            by_scope: IndexMap::new(alloc),
        }
    }

    /// The handlers of an event in a scope. Takes no memory. Both are of Unicode scalar values, as each text is.
    pub fn find(&self, scope: &Text, event: &Text) -> &[Handler]
        ensures found { result.now ≡ handlers_found self.now scope.now event.now }
        ensures scope { all_scalars scope.now ≡ true }
        ensures event { all_scalars event.now ≡ true }
    {
        let scope = name(scope);
        let event = name(event);
        match self.by_scope.get(scope) {
            Some(events) => events.find(event),
            None => &[],
        }
    }

    /// Adds the handler of a subscription behind those of its topic. Without memory each topic has the handlers it had.
    pub fn add(&mut self, s: &Subscription) -> Result<(), WantOfMemory>
        ensures ok { OnOk result (FindsMore s.now self.old self.new) }
        ensures err { OnErr result (FindsSame self.old self.new) }
        ensures tight { IsTight self.old → IsTight self.new }
    {
        let scope = name(&s.scope);
        let event = name(&s.event);
        let handler = handler_of(s)?;
        if let Some(events) = self.by_scope.get_mut(scope) {
            events.add(event, handler)?;
            return Ok(());
        }
        let mut events = Events::new(self.alloc);
        events.add(event, handler)?;
        let key = String::from_str(self.alloc, scope)?;
        self.by_scope.insert(key, events)?;
        Ok(())
    }

    /// Takes the handler of a subscription away from its topic. Takes no memory.
    pub fn remove(&mut self, s: &Subscription)
        ensures found { FindsLess s.now self.old self.new }
        ensures tight { IsTight self.old → IsTight self.new }
    {
        let scope = name(&s.scope);
        let event = name(&s.event);
        if let Some(events) = self.by_scope.get_mut(scope) {
            events.remove(event, s);
        }
        self.forget_empty(scope);
    }

    /// Takes the entry of a scope away in which no event has a handler left.
    fn forget_empty(&mut self, scope: &str)
        ensures found { FindsSame self.old self.new }
        ensures tight { IsTightBut scope.now self.old → IsTight self.new }
    {
        if self.is_emptied(scope) {
            self.by_scope.swap_remove(scope);
        }
    }

    /// Whether a scope has an entry in which no event has a handler.
    fn is_emptied(&self, scope: &str) -> bool
        ensures found { IsTrue result → (event : List ℕ) → handlers_at self.now scope.now event ≡ [] }
        ensures some { result ≡ false → IfSome (get_by_text self.now.by_scope scope.now) HasEvents }
    {
        match self.by_scope.get(scope) {
            Some(events) => events.is_empty(),
            None => false,
        }
    }

    /// Takes the handlers of an object away from each topic. Takes no memory.
    pub fn remove_object(&mut self, object: u32)
        ensures found { (scope : List ℕ) → (event : List ℕ)
            → handlers_at self.new scope event ≡ without_handlers_of object (handlers_at self.old scope event) }
        ensures tight { IsTight self.new }
    {
        // `len` is called for its clause that no two entries have one name.
        let _len = self.by_scope.len(); // for the prover
        self.by_scope.retain(
            |_scope: &String, events: &mut Events| -> bool
                ensures left { (e : List ℕ)
                    → handlers_in events.new e ≡ without_handlers_of object (handlers_in events.old e) }
                ensures gone { result ≡ false → (e : List ℕ) → handlers_in events.new e ≡ [] }
                ensures kept { result ≡ true → AreTight events.new }
            {
                events.remove_object(object);
                !events.is_empty()
            },
        );
    }
}

/// The name of a scope or an event in the index: its UTF-8.
fn name(text: &Text) -> &str
    ensures bytes { result.now ≡ encode_utf8_all text.now }
    ensures scalars { all_scalars text.now ≡ true }
{
    // `bytes` is called for its clause that the characters are Unicode scalar values.
    let _bytes = text.bytes(); // for the prover
    text.as_str()
}
