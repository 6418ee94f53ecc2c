// What an object asks of the kernel when it has handled an event.
#[derive(Clone, Copy, Debug, PartialEq, Eq)]
pub enum Send {
    Post { object: u8, signal: u8, word: u32 },
    Publish { signal: u8, word: u32 },
    Recall,
}
