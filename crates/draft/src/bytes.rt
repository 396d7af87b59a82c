// The bytes of the records.
ghost use Rattle.std.specs.Prelude.{◌≡◌};
ghost use Rattle.draft.specs.Bytes.{record_bytes};
ghost use Rattle.table.specs.declared.records.Record.TheVariants.{Frame, Job, Segment};

#[tactic(auto, unfolding(crate::specs::Bytes::record_bytes))]
pub fn frame(ticks: u32) -> [u8; 6]
    ensures { result ≡ record_bytes (Frame ticks) }
{
    let [a, b, c, d] = ticks.to_le_bytes();
    [b'F', b'R', a, b, c, d]
}

// A job that has no segment yet.
#[tactic(auto, unfolding(crate::specs::Bytes::record_bytes))]
pub fn job(release: u32, priority: u8) -> [u8; 8]
    ensures { result ≡ record_bytes (Job release priority 0) }
{
    let [a, b, c, d] = release.to_le_bytes();
    [b'J', b'B', a, b, c, d, priority, 0]
}

#[tactic(auto, unfolding(crate::specs::Bytes::record_bytes))]
pub fn segment(shortest: u32, longest: u32, held: u16) -> [u8; 12]
    ensures { result ≡ record_bytes (Segment shortest longest held) }
{
    let [a, b, c, d] = shortest.to_le_bytes();
    let [e, f, g, h] = longest.to_le_bytes();
    let [i, j] = held.to_le_bytes();
    [b'S', b'G', a, b, c, d, e, f, g, h, i, j]
}
