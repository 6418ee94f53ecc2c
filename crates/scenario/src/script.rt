// The script of a scenario: what is asked of the kernel, in order.
use terms::event::Event;

#[derive(Clone, Copy)]
pub enum Command {
    Post { object: u8, event: Event },
    PostFront { object: u8, event: Event },
    Publish { event: Event },
    Recycle { event: Event },
    Dispatch { times: u16 },
}
