// One record of a roll: a kind byte, then a body whose length the kind fixes.
ghost use Rattle.std.specs.Prelude.{◌≡◌};
ghost use Rattle.roll.specs.Record.{record_size, record_at};
ghost use Rattle.roll.specs.Table.{SizeFits};

// Where a port's index (4 bytes) and its name (16 bytes) start, and where the record ends.
#[derive(Clone, Copy)]
pub struct PortRecord {
    pub index: usize,
    pub name: usize,
    pub end: usize,
}

#[derive(Clone, Copy)]
pub enum RecordRead {
    Port(PortRecord),
    // A kind that no record has.
    Unknown,
    // The roll ends inside the record.
    Cut,
    // No record: the roll's end.
    End,
}

// The most bytes that a record takes.
pub const MOST_BYTES: usize = 21;

// How many bytes a record of a kind takes, its kind byte with them; 0 for a kind that no record has.
fn record_size(kind: u8) -> usize
    ensures { (result ≡ record_size kind) × SizeFits result }
{
    if kind == 1 {
        return 21;
    }
    0
}

// The record at a place.
pub fn read_record(roll: &[u8], at: usize) -> RecordRead
    ensures { result ≡ record_at roll.now at }
{
    if roll.len() <= at {
        return RecordRead::End;
    }
    let size = record_size(roll[at]);
    if size == 0 {
        return RecordRead::Unknown;
    }
    if roll.len() - at < size {
        return RecordRead::Cut;
    }
    RecordRead::Port(PortRecord {
        index: at + 1,
        name: at + 5,
        end: at + size,
    })
}
