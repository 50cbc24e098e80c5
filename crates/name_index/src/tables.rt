// A list of names with tables that lead to each of them.
ghost use Rattle.name_index.specs.Chain.{Linked};
ghost use Rattle.name_index.specs.OneProof.{linked-prop};

// The list, and its tables: `head`, a place for each length and last byte; `links`, one for each entry.
#[derive(Clone, Copy)]
pub struct Tables<'a> {
    pub names: &'a [u8],
    pub head: &'a [u16],
    pub links: &'a [u16],
    ghost linked: { Linked names.now head.now links.now 0 } by { linked-prop names.now head.now links.now 0 },
}
