// One record of the table's bytes.
ghost use Rattle.std.specs.Prelude.{◌≡◌};
ghost use Rattle.table.specs.Records.{record_at, size_of, due, place_after, may_end};

// What is due at a place of the table.
#[derive(Clone, Copy, Debug, PartialEq, Eq)]
pub enum Place {
    // The FR record.
    First,
    // A job's record, or the end.
    Next,
    // So many SG records of the job before.
    Within(u8),
}

#[derive(Clone, Copy, Debug, PartialEq, Eq)]
pub enum Record {
    // The frame length.
    Frame(u32),
    // Release, base priority, segment count.
    Job(u32, u8, u8),
    // Shortest, longest, held locks.
    Segment(u32, u32, u16),
}

impl Record {
    // The record at the start of the part, where one that may stand at the place does.
    #[tactic(auto, unfolding(crate::specs::Records::record_at, crate::specs::Records::marked, crate::specs::Records::sized))]
    pub fn read(part: &[u8], place: Place) -> Option<Record>
        ensures { result ≡ record_at place part.now }
    {
        match (place, part) {
            (Place::First, [b'F', b'R', a, b, c, d, ..]) => {
                Some(Record::Frame(u32::from_le_bytes([*a, *b, *c, *d])))
            }
            (Place::Next, [b'J', b'B', a, b, c, d, base, count, ..]) => {
                Some(Record::Job(u32::from_le_bytes([*a, *b, *c, *d]), *base, *count))
            }
            (Place::Within(_), [b'S', b'G', a, b, c, d, e, f, g, h, i, j, ..]) => {
                let shortest = u32::from_le_bytes([*a, *b, *c, *d]);
                let longest = u32::from_le_bytes([*e, *f, *g, *h]);
                Some(Record::Segment(shortest, longest, u16::from_le_bytes([*i, *j])))
            }
            _ => None,
        }
    }

    // The bytes of a record, with its mark.
    pub fn size(self) -> usize
        ensures { result ≡ size_of self }
    {
        match self {
            Record::Frame(..) => 6,
            Record::Job(..) => 8,
            Record::Segment(..) => 12,
        }
    }
}

impl Place {
    fn due(n: u8) -> Place
        ensures { result ≡ due n }
    {
        if n == 0 {
            return Place::Next;
        }
        Place::Within(n)
    }

    // What is due after a record that stood here.
    pub fn after(self, rec: Record) -> Place
        ensures { result ≡ place_after self rec }
    {
        match (rec, self) {
            (Record::Job(_, _, n), _) => Place::due(n),
            (Record::Segment(..), Place::Within(n)) => Place::due(n.saturating_sub(1)),
            _ => Place::Next,
        }
    }

    // A table may end here.
    pub fn may_end(self) -> bool
        ensures { result ≡ may_end self }
    {
        matches!(self, Place::Next)
    }
}
