// The ports of a roll in a table: the one walk over its records. The table is a word for each port: its index, and above that where its
// name stands in the roll.
ghost use Rattle.std.specs.Prelude.{◌≡◌, ℕ, ◌<◌, ◌≤◌, List, length, take};
ghost use Rattle.basics.specs.Numbers.{u32_at};
ghost use Rattle.roll.specs.Record.{port_count, index_of, name_of};
ghost use Rattle.roll.specs.Table.{low_of, high_of, Tabled, TableRead};
ghost use Rattle.roll.specs.Find.{has_name, found_by_index, found_by_name};

use crate::name::{holds_name, name_at};
use crate::record::{RecordRead, read_record};
use numbers::{four, u32_at};
use std::marker::Model;

// The most ports of a roll.
pub const PORTS: usize = 64;

// The word of a port.
fn word(index: u32, name: usize) -> u64
    requires { name < 65536 }
    ensures { (low_of result ≡ index) × (high_of result ≡ name) }
{
    name as u64 * 4294967296 + index as u64
}

// Reads the records of a roll into a table, and answers how many ports there are: 0 where the records are not whole, or more than 64.
pub fn read_ports(roll: &[u8], table: &mut [u64]) -> usize
    requires { length table.old ≡ 64 }
    ensures { (result ≤ 64) × TableRead roll.now (take result table.new) }
{
    let mut count = 0;
    let mut at = 0;
    loop {
        match read_record(roll, at) {
            RecordRead::Port(port) => {
                if count == PORTS {
                    return 0;
                }
                table[count] = word(u32_at(roll, port.index), port.name);
                count += 1;
                at = port.end;
            }
            RecordRead::Unknown => {
                return 0;
            }
            RecordRead::Cut => {
                return 0;
            }
            RecordRead::End => {
                return count;
            }
        }
    }
}

// A roll and the table of its ports; contracts see the roll's bytes. These may outlive the table.
#[derive(Drop)]
pub struct Roll<'r, 't> {
    bytes: &'r [u8],
    ports: &'t [u64],
}

impl<'r, 't> Model for Roll<'r, 't> {
    ghost Value = { List ℕ };

    ghost view = { λ r. r.bytes.now };

    ghost invariant = { λ r. Tabled r.bytes.now r.ports.now };
}

impl<'r, 't> Roll<'r, 't> {
    pub fn new(bytes: &'r [u8], ports: &'t [u64]) -> Roll<'r, 't>
        requires { Tabled bytes.now ports.now }
        ensures { result ≡ bytes.now }
    {
        Roll { bytes, ports }
    }

    // The roll itself.
    pub fn bytes(&self) -> &'r [u8]
        ensures { result.now ≡ self.now }
    {
        self.bytes
    }

    // How many ports there are.
    pub fn count(&self) -> usize
        ensures { result ≡ port_count self.now }
    {
        self.ports.len()
    }

    // The index of the port at a position.
    pub fn index_of(&self, k: usize) -> u32
        requires { k < port_count self.now }
        ensures { result ≡ index_of self.now k }
    {
        let ports = self.ports;
        (ports[k] % 4294967296) as u32
    }

    // The name of the port at a position: the 16 bytes where they stand in the roll.
    pub fn name_of(&self, k: usize) -> &'r [u8]
        requires { k < port_count self.now }
        ensures { result.now ≡ name_of self.now k }
    {
        let ports = self.ports;
        let at = (ports[k] / 4294967296) as usize;
        name_at(self.bytes, at)
    }

    // The four bytes at 8 of that name, in which the names of one box differ most.
    pub fn probe_of(&self, k: usize) -> u32
        requires { k < port_count self.now }
        ensures { result ≡ u32_at (name_of self.now k) 8 }
    {
        let ports = self.ports;
        let at = (ports[k] / 4294967296) as usize;
        four(self.bytes, at + 8)
    }

    // Whether the port at a position has the name, of which the four bytes at 8 are `probe`: they tell most ports of a box.
    fn has_name(&self, k: usize, wanted: &[u8], probe: u32) -> bool
        requires k_in_bounds { k < port_count self.now }
        requires probe_value { probe ≡ u32_at wanted.now 8 }
        ensures { result ≡ has_name self.now wanted.now k }
    {
        if self.probe_of(k) != probe {
            return false;
        }
        holds_name(self.name_of(k), wanted)
    }

    // The first port of an index: which port it is, from 0.
    pub fn port_of_index(&self, wanted: u32) -> Option<usize>
        ensures { result ≡ found_by_index self.now wanted }
    {
        for k in 0..self.count() {
            if self.index_of(k) == wanted {
                return Some(k);
            }
        }
        None
    }

    // The first port of a name, which may end in NULs.
    pub fn port_of_name(&self, wanted: &[u8]) -> Option<usize>
        ensures { result ≡ found_by_name self.now wanted.now }
    {
        let probe = u32_at(wanted, 8);
        for k in 0..self.count() {
            if self.has_name(k, wanted, probe) {
                return Some(k);
            }
        }
        None
    }
}
