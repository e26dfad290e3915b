// What a command answers, before it is written into the reply room.
use crate::buffers::Buffer;
use protocol::codes::Code;

#[derive(Clone, Copy)]
pub(crate) enum Answer {
    /// Nothing.
    Silence,
    /// A code alone.
    Alone(Code),
    /// 00h and the number of stored pages.
    Count([u8; 2]),
    /// 00h or 09h, and page and score.
    Match(Code, [u8; 4]),
    /// 00h and the system parameters.
    Parameters([u8; 16]),
    /// 00h and a page of the notepad or of the index.
    Page([u8; 32]),
    /// 00h, and a buffer in data packets behind the acknowledge.
    Upload(Buffer),
}
