//! What a view does at a line.
use model_value::Value;
use tea_base::Text;
use view_bridge::Handling;

/// What a view does at a line of a script.
#[derive(Drop)]
pub enum ViewLine {
    /// It sends an event of this name, with this value, to the models that handle it in this scope.
    Publish {
        scope: Text,
        event: Text,
        value: Value,
    },
    /// It subscribes to the events of this name in this scope.
    Watch {
        scope: Text,
        event: Text,
        handling: Handling,
    },
    /// It waits until a time, in microseconds of TeaTime since the session's founding.
    Wait {
        time: u64,
    },
    /// It waits for so long, in microseconds of TeaTime, from its own time on.
    WaitFor {
        span: u64,
    },
    /// It sends what it has not sent, and waits until each event that it published is acknowledged.
    Settle,
    /// It offers a snapshot, and waits for the answer.
    Snap,
    /// It cuts its connection, and joins again on another one.
    Cut,
    /// It ends.
    Quit,
    /// It prints a word, behind all that the lines before it print.
    Mark {
        word: Text,
    },
    /// It hears its link until it has this entry, from 1, and publishes the digest that its world has directly after it.
    Vote {
        at: u32,
    },
    /// It prints its world in full, as it is once nothing is due any more at its time.
    Show,
}
