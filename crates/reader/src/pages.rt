// Pages of the notepad and of the index: 32 bytes each.
ghost use Rattle.std.specs.Prelude.{◌≡◌, ◌*◌, ◌/◌, ◌<◌, ◌↔◌, length, IsSome, IfSome};
ghost use Rattle.protocol.specs.Numbers.{note_bytes};
ghost use Rattle.protocol.specs.Bytes.{part};

use protocol::numbers;

// A page of a memory, or none where the memory has no such page.
pub(crate) fn page_of(memory: &[u8], page: u8) -> Option<[u8; 32]>
    ensures there { IsSome result ↔ (page < length memory.now / note_bytes) }
    ensures bytes { IfSome result (λ b. b ≡ part (note_bytes * page) note_bytes memory.now) }
{
    let start = numbers::NOTE * usize::from(page);
    memory.get(start..start + numbers::NOTE)?.try_into().ok()
}
