// The script part: p, f, b, r and g.
ghost use Rattle.std.specs.Prelude.{◌≡◌, ℕ};
ghost use Rattle.terms.specs.Calls.{Answers};
ghost use Rattle.terms.specs.Entries.{entries};
ghost use Rattle.terms.specs.Events.{Content, content};
ghost use Rattle.kernel.specs.Plan.{plan};
ghost use Rattle.scenario.specs.Cell.{Order, order};
ghost use Rattle.scenario.specs.Lines.{script_line, addressed, event_of, object_of};

use crate::fault::{Cause, LineFault, ScriptFault};
use crate::line::Line;
use crate::script::Command;
use kernel::layout::Layout;
use terms::event::Event;
use terms::range::between;

pub(crate) fn script_line(layout: &Layout, line: &Line) -> Result<Command, Cause>
    ensures { Answers order (script_line (plan layout.now) line.now.letter (entries line.now.numbers)) result }
{
    match (line.letter, line.numbers.as_slice()) {
        ('p', [object, signal, words @ ..]) => {
            let (object, event) = addressed(layout, *object, *signal, words)?;
            Ok(Command::Post { object, event })
        }
        ('f', [object, signal, words @ ..]) => {
            let (object, event) = addressed(layout, *object, *signal, words)?;
            Ok(Command::PostFront { object, event })
        }
        ('b', [signal, words @ ..]) => Ok(Command::Publish {
            event: event_of(layout, *signal, words)?,
        }),
        ('r', [signal, words @ ..]) => Ok(Command::Recycle {
            event: event_of(layout, *signal, words)?,
        }),
        ('g', &[times]) => Ok(Command::Dispatch { times }),
        _ => Err(LineFault::Form.into()),
    }
}

// An event and the object that it is for, whose number is looked at last.
#[tactic(auto, unfolding(crate::specs::Lines::object_of))]
fn addressed(layout: &Layout, object: u16, signal: u16, words: &[u16]) -> Result<(u8, Event), Cause>
    ensures { (make : ℕ → Content → Order) → Answers (λ p. make p.0 (content p.1)) (addressed make (event_of (plan layout.now) signal words.now) (object_of (plan layout.now) object)) result }
{
    let event = event_of(layout, signal, words)?;
    let object = layout.object(object).ok_or(ScriptFault::Object)?;
    Ok((object, event))
}

// An event that some pool holds: the signal first, then the count of its words.
#[tactic(auto, unfolding(crate::specs::Lines::event_of))]
fn event_of(layout: &Layout, signal: u16, words: &[u16]) -> Result<Event, ScriptFault>
    ensures { Answers content (event_of (plan layout.now) signal words.now) result }
{
    let signal = between(1, signal, 64).ok_or(ScriptFault::Signal)?;
    if !layout.holds(words.len()) {
        return Err(ScriptFault::Words);
    }
    let mut event = Event::new(signal);
    for word in words {
        event.push(u32::from(*word)).unwrap();
    }
    Ok(event)
}
