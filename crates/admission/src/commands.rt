// The commands that are taken up, a row of one table each.
ghost use Rattle.std.specs.Prelude.{◌≡◌};
ghost use Rattle.admission.specs.Commands.{command_row, listed_row, commands, command_of};

use layout::Set;

// The numbers of the commands, and of their replies.
const STRSET_GET: u8 = 1;

const DEBUG_GET: u8 = 7;

const DEBUG_SET: u8 = 8;

const PRIVFLAGS_GET: u8 = 13;

const PRIVFLAGS_SET: u8 = 14;

const DEBUG_GET_REPLY: u8 = 7;

const PRIVFLAGS_GET_REPLY: u8 = 14;

// How many commands there are.
const COUNT: usize = 5;

// A command about a set of a port: its number, whether it changes the set (SET) or asks for it (GET), the set, the command of its reply, and whether it may be dumped.
#[derive(Clone, Copy)]
pub struct Command {
    pub number: u8,
    pub change: bool,
    pub set: Set,
    pub reply: u8,
    pub dump: bool,
}

// A command that is taken up.
#[derive(Clone, Copy)]
pub enum Listed {
    OfSet(Command),
    // STRSET_GET, which is about no set of a port.
    Strset,
}

// A row of the table.
#[derive(Clone, Copy)]
pub struct Row {
    pub number: u8,
    pub command: Listed,
}

fn command_row(number: u8, change: bool, set: Set, reply: u8, dump: bool) -> Command
    ensures { result ≡ command_row number change set reply dump }
{
    Command {
        number,
        change,
        set,
        reply,
        dump,
    }
}

fn listed_row(number: u8, change: bool, set: Set, reply: u8, dump: bool) -> Row
    ensures { result ≡ listed_row number change set reply dump }
{
    Row {
        number,
        command: Listed::OfSet(command_row(number, change, set, reply, dump)),
    }
}

// The table.
fn commands() -> [Row; COUNT]
    ensures { result ≡ commands }
{
    [
        Row {
            number: STRSET_GET,
            command: Listed::Strset,
        },
        listed_row(DEBUG_GET, false, Set::Debug, DEBUG_GET_REPLY, true),
        listed_row(DEBUG_SET, true, Set::Debug, DEBUG_GET_REPLY, false),
        listed_row(PRIVFLAGS_GET, false, Set::Flags, PRIVFLAGS_GET_REPLY, true),
        listed_row(PRIVFLAGS_SET, true, Set::Flags, PRIVFLAGS_GET_REPLY, false),
    ]
}

// The command of a number, none where no row has it.
pub fn read_command(number: u8) -> Option<Listed>
    ensures { result ≡ command_of number }
{
    let rows = commands();
    for i in 0..COUNT {
        let row = rows[i];
        if row.number == number {
            return Some(row.command);
        }
    }
    None
}
