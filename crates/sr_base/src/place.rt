ghost use Rattle.std.specs.Prelude.{◌≡◌};
ghost use Rattle.sr_base.specs.Place.{same_place};

/// Where an entry stands: in a cell of a bucket of the digest table, or in a row of the table of full keys.
#[derive(Clone, Copy, Debug, PartialEq, Eq, PartialOrd, Ord, Hash)]
pub enum Place {
    /// A cell of the digest table (SilkRoad, SIGCOMM 2017: ConnTable, a cuckoo hash table of digests).
    Slot {
        /// Which of the two hash functions led to the bucket, 1 or 2.
        way: u8,
        /// The bucket, from 0.
        bucket: u32,
        /// The cell in the bucket, 0 to 3.
        cell: u8,
    },
    /// A row of the table of full keys.
    Row {
        /// The row, from 0.
        row: u32,
    },
}

impl Place {
    /// Whether the two places are one.
    pub fn same(self, other: Place) -> bool
        ensures { result ≡ same_place self other }
    {
        match (self, other) {
            (
                Place::Slot { way, bucket, cell },
                Place::Slot {
                    way: other_way,
                    bucket: other_bucket,
                    cell: other_cell,
                },
            ) => way == other_way && bucket == other_bucket && cell == other_cell,
            (Place::Row { row }, Place::Row { row: other_row }) => row == other_row,
            _ => false,
        }
    }
}
