// The command rules as a table: 256 bytes in seven states, each entry an action number. Made for reading; `model_commands` has the same
// rules as tests. tests/command_table.py writes the table.
#![tactic(auto)]

ghost use Rattle.std.specs.Prelude.{◌≡◌, ◌<◌, ◌%◌};
ghost use Rattle.model_commands.specs.Commands.{command_of, action_of};
ghost use Rattle.command_table.specs.Actions.{row_of, for_large, action_for, entry_in, entry_at};

use device::Part;
use model_types::{Action, Cycle, Phase};

// No command: refusal 7.
pub const REFUSE: u8 = 0;

// Nothing comes of it.
pub const IGNORE: u8 = 1;

// The byte or word is data: a program starts.
pub const STORE: u8 = 2;

// Not the second write that was awaited: SR.5 and SR.4 are set.
pub const WRONG_SECOND: u8 = 3;

// Reads give the array.
pub const TO_ARRAY: u8 = 4;

// Reads give the identifier.
pub const TO_IDENTIFIER: u8 = 5;

// Reads give the status.
pub const TO_STATUS: u8 = 6;

// SR.5, SR.4 and SR.3 are cleared.
pub const CLEAR: u8 = 7;

// An erase awaits its confirm.
pub const AWAIT_ERASE: u8 = 8;

// A program awaits its data.
pub const AWAIT_DATA: u8 = 9;

// Devices 5 to 8: a program awaits its data; devices 1 to 4: refusal 7. The part is asked when the action is performed.
pub const AWAIT_DATA_LARGE: u8 = 10;

// The confirm: an erase starts.
pub const CONFIRM: u8 = 11;

// A suspend starts.
pub const SUSPEND: u8 = 12;

// The suspended erase goes on.
pub const RESUME: u8 = 13;

// Sixteen lines for a state, a line for the bytes of one high digit, a column for each low digit, 0 to F.
const COMMANDS: [[u8; 16]; 112] = [
    [0, 0, 0, 0, 0, 0, 0, 0, 0, 0, 0, 0, 0, 0, 0, 0], // idle, 00H to 0FH
    [10, 0, 0, 0, 0, 0, 0, 0, 0, 0, 0, 0, 0, 0, 0, 0], // idle, 10H to 1FH
    [8, 0, 0, 0, 0, 0, 0, 0, 0, 0, 0, 0, 0, 0, 0, 0], // idle, 20H to 2FH
    [0, 0, 0, 0, 0, 0, 0, 0, 0, 0, 0, 0, 0, 0, 0, 0], // idle, 30H to 3FH
    [9, 0, 0, 0, 0, 0, 0, 0, 0, 0, 0, 0, 0, 0, 0, 0], // idle, 40H to 4FH
    [7, 0, 0, 0, 0, 0, 0, 0, 0, 0, 0, 0, 0, 0, 0, 0], // idle, 50H to 5FH
    [0, 0, 0, 0, 0, 0, 0, 0, 0, 0, 0, 0, 0, 0, 0, 0], // idle, 60H to 6FH
    [6, 0, 0, 0, 0, 0, 0, 0, 0, 0, 0, 0, 0, 0, 0, 0], // idle, 70H to 7FH
    [0, 0, 0, 0, 0, 0, 0, 0, 0, 0, 0, 0, 0, 0, 0, 0], // idle, 80H to 8FH
    [5, 0, 0, 0, 0, 0, 0, 0, 0, 0, 0, 0, 0, 0, 0, 0], // idle, 90H to 9FH
    [0, 0, 0, 0, 0, 0, 0, 0, 0, 0, 0, 0, 0, 0, 0, 0], // idle, A0H to AFH
    [4, 0, 0, 0, 0, 0, 0, 0, 0, 0, 0, 0, 0, 0, 0, 0], // idle, B0H to BFH
    [0, 0, 0, 0, 0, 0, 0, 0, 0, 0, 0, 0, 0, 0, 0, 0], // idle, C0H to CFH
    [0, 0, 0, 0, 0, 0, 0, 0, 0, 0, 0, 0, 0, 0, 0, 0], // idle, D0H to DFH
    [0, 0, 0, 0, 0, 0, 0, 0, 0, 0, 0, 0, 0, 0, 0, 0], // idle, E0H to EFH
    [0, 0, 0, 0, 0, 0, 0, 0, 0, 0, 0, 0, 0, 0, 0, 4], // idle, F0H to FFH
    [3, 3, 3, 3, 3, 3, 3, 3, 3, 3, 3, 3, 3, 3, 3, 3], // erase awaited, 00H to 0FH
    [3, 3, 3, 3, 3, 3, 3, 3, 3, 3, 3, 3, 3, 3, 3, 3], // erase awaited, 10H to 1FH
    [3, 3, 3, 3, 3, 3, 3, 3, 3, 3, 3, 3, 3, 3, 3, 3], // erase awaited, 20H to 2FH
    [3, 3, 3, 3, 3, 3, 3, 3, 3, 3, 3, 3, 3, 3, 3, 3], // erase awaited, 30H to 3FH
    [3, 3, 3, 3, 3, 3, 3, 3, 3, 3, 3, 3, 3, 3, 3, 3], // erase awaited, 40H to 4FH
    [3, 3, 3, 3, 3, 3, 3, 3, 3, 3, 3, 3, 3, 3, 3, 3], // erase awaited, 50H to 5FH
    [3, 3, 3, 3, 3, 3, 3, 3, 3, 3, 3, 3, 3, 3, 3, 3], // erase awaited, 60H to 6FH
    [3, 3, 3, 3, 3, 3, 3, 3, 3, 3, 3, 3, 3, 3, 3, 3], // erase awaited, 70H to 7FH
    [3, 3, 3, 3, 3, 3, 3, 3, 3, 3, 3, 3, 3, 3, 3, 3], // erase awaited, 80H to 8FH
    [3, 3, 3, 3, 3, 3, 3, 3, 3, 3, 3, 3, 3, 3, 3, 3], // erase awaited, 90H to 9FH
    [3, 3, 3, 3, 3, 3, 3, 3, 3, 3, 3, 3, 3, 3, 3, 3], // erase awaited, A0H to AFH
    [3, 3, 3, 3, 3, 3, 3, 3, 3, 3, 3, 3, 3, 3, 3, 3], // erase awaited, B0H to BFH
    [3, 3, 3, 3, 3, 3, 3, 3, 3, 3, 3, 3, 3, 3, 3, 3], // erase awaited, C0H to CFH
    [11, 3, 3, 3, 3, 3, 3, 3, 3, 3, 3, 3, 3, 3, 3, 3], // erase awaited, D0H to DFH
    [3, 3, 3, 3, 3, 3, 3, 3, 3, 3, 3, 3, 3, 3, 3, 3], // erase awaited, E0H to EFH
    [3, 3, 3, 3, 3, 3, 3, 3, 3, 3, 3, 3, 3, 3, 3, 3], // erase awaited, F0H to FFH
    [2, 2, 2, 2, 2, 2, 2, 2, 2, 2, 2, 2, 2, 2, 2, 2], // program awaited, 00H to 0FH
    [2, 2, 2, 2, 2, 2, 2, 2, 2, 2, 2, 2, 2, 2, 2, 2], // program awaited, 10H to 1FH
    [2, 2, 2, 2, 2, 2, 2, 2, 2, 2, 2, 2, 2, 2, 2, 2], // program awaited, 20H to 2FH
    [2, 2, 2, 2, 2, 2, 2, 2, 2, 2, 2, 2, 2, 2, 2, 2], // program awaited, 30H to 3FH
    [2, 2, 2, 2, 2, 2, 2, 2, 2, 2, 2, 2, 2, 2, 2, 2], // program awaited, 40H to 4FH
    [2, 2, 2, 2, 2, 2, 2, 2, 2, 2, 2, 2, 2, 2, 2, 2], // program awaited, 50H to 5FH
    [2, 2, 2, 2, 2, 2, 2, 2, 2, 2, 2, 2, 2, 2, 2, 2], // program awaited, 60H to 6FH
    [2, 2, 2, 2, 2, 2, 2, 2, 2, 2, 2, 2, 2, 2, 2, 2], // program awaited, 70H to 7FH
    [2, 2, 2, 2, 2, 2, 2, 2, 2, 2, 2, 2, 2, 2, 2, 2], // program awaited, 80H to 8FH
    [2, 2, 2, 2, 2, 2, 2, 2, 2, 2, 2, 2, 2, 2, 2, 2], // program awaited, 90H to 9FH
    [2, 2, 2, 2, 2, 2, 2, 2, 2, 2, 2, 2, 2, 2, 2, 2], // program awaited, A0H to AFH
    [2, 2, 2, 2, 2, 2, 2, 2, 2, 2, 2, 2, 2, 2, 2, 2], // program awaited, B0H to BFH
    [2, 2, 2, 2, 2, 2, 2, 2, 2, 2, 2, 2, 2, 2, 2, 2], // program awaited, C0H to CFH
    [2, 2, 2, 2, 2, 2, 2, 2, 2, 2, 2, 2, 2, 2, 2, 2], // program awaited, D0H to DFH
    [2, 2, 2, 2, 2, 2, 2, 2, 2, 2, 2, 2, 2, 2, 2, 2], // program awaited, E0H to EFH
    [2, 2, 2, 2, 2, 2, 2, 2, 2, 2, 2, 2, 2, 2, 2, 2], // program awaited, F0H to FFH
    [1, 1, 1, 1, 1, 1, 1, 1, 1, 1, 1, 1, 1, 1, 1, 1], // program busy, 00H to 0FH
    [1, 1, 1, 1, 1, 1, 1, 1, 1, 1, 1, 1, 1, 1, 1, 1], // program busy, 10H to 1FH
    [1, 1, 1, 1, 1, 1, 1, 1, 1, 1, 1, 1, 1, 1, 1, 1], // program busy, 20H to 2FH
    [1, 1, 1, 1, 1, 1, 1, 1, 1, 1, 1, 1, 1, 1, 1, 1], // program busy, 30H to 3FH
    [1, 1, 1, 1, 1, 1, 1, 1, 1, 1, 1, 1, 1, 1, 1, 1], // program busy, 40H to 4FH
    [1, 1, 1, 1, 1, 1, 1, 1, 1, 1, 1, 1, 1, 1, 1, 1], // program busy, 50H to 5FH
    [1, 1, 1, 1, 1, 1, 1, 1, 1, 1, 1, 1, 1, 1, 1, 1], // program busy, 60H to 6FH
    [1, 1, 1, 1, 1, 1, 1, 1, 1, 1, 1, 1, 1, 1, 1, 1], // program busy, 70H to 7FH
    [1, 1, 1, 1, 1, 1, 1, 1, 1, 1, 1, 1, 1, 1, 1, 1], // program busy, 80H to 8FH
    [1, 1, 1, 1, 1, 1, 1, 1, 1, 1, 1, 1, 1, 1, 1, 1], // program busy, 90H to 9FH
    [1, 1, 1, 1, 1, 1, 1, 1, 1, 1, 1, 1, 1, 1, 1, 1], // program busy, A0H to AFH
    [1, 1, 1, 1, 1, 1, 1, 1, 1, 1, 1, 1, 1, 1, 1, 1], // program busy, B0H to BFH
    [1, 1, 1, 1, 1, 1, 1, 1, 1, 1, 1, 1, 1, 1, 1, 1], // program busy, C0H to CFH
    [1, 1, 1, 1, 1, 1, 1, 1, 1, 1, 1, 1, 1, 1, 1, 1], // program busy, D0H to DFH
    [1, 1, 1, 1, 1, 1, 1, 1, 1, 1, 1, 1, 1, 1, 1, 1], // program busy, E0H to EFH
    [1, 1, 1, 1, 1, 1, 1, 1, 1, 1, 1, 1, 1, 1, 1, 1], // program busy, F0H to FFH
    [1, 1, 1, 1, 1, 1, 1, 1, 1, 1, 1, 1, 1, 1, 1, 1], // erase busy, 00H to 0FH
    [1, 1, 1, 1, 1, 1, 1, 1, 1, 1, 1, 1, 1, 1, 1, 1], // erase busy, 10H to 1FH
    [1, 1, 1, 1, 1, 1, 1, 1, 1, 1, 1, 1, 1, 1, 1, 1], // erase busy, 20H to 2FH
    [1, 1, 1, 1, 1, 1, 1, 1, 1, 1, 1, 1, 1, 1, 1, 1], // erase busy, 30H to 3FH
    [1, 1, 1, 1, 1, 1, 1, 1, 1, 1, 1, 1, 1, 1, 1, 1], // erase busy, 40H to 4FH
    [1, 1, 1, 1, 1, 1, 1, 1, 1, 1, 1, 1, 1, 1, 1, 1], // erase busy, 50H to 5FH
    [1, 1, 1, 1, 1, 1, 1, 1, 1, 1, 1, 1, 1, 1, 1, 1], // erase busy, 60H to 6FH
    [1, 1, 1, 1, 1, 1, 1, 1, 1, 1, 1, 1, 1, 1, 1, 1], // erase busy, 70H to 7FH
    [1, 1, 1, 1, 1, 1, 1, 1, 1, 1, 1, 1, 1, 1, 1, 1], // erase busy, 80H to 8FH
    [1, 1, 1, 1, 1, 1, 1, 1, 1, 1, 1, 1, 1, 1, 1, 1], // erase busy, 90H to 9FH
    [1, 1, 1, 1, 1, 1, 1, 1, 1, 1, 1, 1, 1, 1, 1, 1], // erase busy, A0H to AFH
    [12, 1, 1, 1, 1, 1, 1, 1, 1, 1, 1, 1, 1, 1, 1, 1], // erase busy, B0H to BFH
    [1, 1, 1, 1, 1, 1, 1, 1, 1, 1, 1, 1, 1, 1, 1, 1], // erase busy, C0H to CFH
    [1, 1, 1, 1, 1, 1, 1, 1, 1, 1, 1, 1, 1, 1, 1, 1], // erase busy, D0H to DFH
    [1, 1, 1, 1, 1, 1, 1, 1, 1, 1, 1, 1, 1, 1, 1, 1], // erase busy, E0H to EFH
    [1, 1, 1, 1, 1, 1, 1, 1, 1, 1, 1, 1, 1, 1, 1, 1], // erase busy, F0H to FFH
    [1, 1, 1, 1, 1, 1, 1, 1, 1, 1, 1, 1, 1, 1, 1, 1], // suspending, 00H to 0FH
    [1, 1, 1, 1, 1, 1, 1, 1, 1, 1, 1, 1, 1, 1, 1, 1], // suspending, 10H to 1FH
    [1, 1, 1, 1, 1, 1, 1, 1, 1, 1, 1, 1, 1, 1, 1, 1], // suspending, 20H to 2FH
    [1, 1, 1, 1, 1, 1, 1, 1, 1, 1, 1, 1, 1, 1, 1, 1], // suspending, 30H to 3FH
    [1, 1, 1, 1, 1, 1, 1, 1, 1, 1, 1, 1, 1, 1, 1, 1], // suspending, 40H to 4FH
    [1, 1, 1, 1, 1, 1, 1, 1, 1, 1, 1, 1, 1, 1, 1, 1], // suspending, 50H to 5FH
    [1, 1, 1, 1, 1, 1, 1, 1, 1, 1, 1, 1, 1, 1, 1, 1], // suspending, 60H to 6FH
    [6, 1, 1, 1, 1, 1, 1, 1, 1, 1, 1, 1, 1, 1, 1, 1], // suspending, 70H to 7FH
    [1, 1, 1, 1, 1, 1, 1, 1, 1, 1, 1, 1, 1, 1, 1, 1], // suspending, 80H to 8FH
    [1, 1, 1, 1, 1, 1, 1, 1, 1, 1, 1, 1, 1, 1, 1, 1], // suspending, 90H to 9FH
    [1, 1, 1, 1, 1, 1, 1, 1, 1, 1, 1, 1, 1, 1, 1, 1], // suspending, A0H to AFH
    [1, 1, 1, 1, 1, 1, 1, 1, 1, 1, 1, 1, 1, 1, 1, 1], // suspending, B0H to BFH
    [1, 1, 1, 1, 1, 1, 1, 1, 1, 1, 1, 1, 1, 1, 1, 1], // suspending, C0H to CFH
    [1, 1, 1, 1, 1, 1, 1, 1, 1, 1, 1, 1, 1, 1, 1, 1], // suspending, D0H to DFH
    [1, 1, 1, 1, 1, 1, 1, 1, 1, 1, 1, 1, 1, 1, 1, 1], // suspending, E0H to EFH
    [1, 1, 1, 1, 1, 1, 1, 1, 1, 1, 1, 1, 1, 1, 1, 1], // suspending, F0H to FFH
    [1, 1, 1, 1, 1, 1, 1, 1, 1, 1, 1, 1, 1, 1, 1, 1], // suspended, 00H to 0FH
    [1, 1, 1, 1, 1, 1, 1, 1, 1, 1, 1, 1, 1, 1, 1, 1], // suspended, 10H to 1FH
    [1, 1, 1, 1, 1, 1, 1, 1, 1, 1, 1, 1, 1, 1, 1, 1], // suspended, 20H to 2FH
    [1, 1, 1, 1, 1, 1, 1, 1, 1, 1, 1, 1, 1, 1, 1, 1], // suspended, 30H to 3FH
    [1, 1, 1, 1, 1, 1, 1, 1, 1, 1, 1, 1, 1, 1, 1, 1], // suspended, 40H to 4FH
    [1, 1, 1, 1, 1, 1, 1, 1, 1, 1, 1, 1, 1, 1, 1, 1], // suspended, 50H to 5FH
    [1, 1, 1, 1, 1, 1, 1, 1, 1, 1, 1, 1, 1, 1, 1, 1], // suspended, 60H to 6FH
    [6, 1, 1, 1, 1, 1, 1, 1, 1, 1, 1, 1, 1, 1, 1, 1], // suspended, 70H to 7FH
    [1, 1, 1, 1, 1, 1, 1, 1, 1, 1, 1, 1, 1, 1, 1, 1], // suspended, 80H to 8FH
    [1, 1, 1, 1, 1, 1, 1, 1, 1, 1, 1, 1, 1, 1, 1, 1], // suspended, 90H to 9FH
    [1, 1, 1, 1, 1, 1, 1, 1, 1, 1, 1, 1, 1, 1, 1, 1], // suspended, A0H to AFH
    [1, 1, 1, 1, 1, 1, 1, 1, 1, 1, 1, 1, 1, 1, 1, 1], // suspended, B0H to BFH
    [1, 1, 1, 1, 1, 1, 1, 1, 1, 1, 1, 1, 1, 1, 1, 1], // suspended, C0H to CFH
    [13, 1, 1, 1, 1, 1, 1, 1, 1, 1, 1, 1, 1, 1, 1, 1], // suspended, D0H to DFH
    [1, 1, 1, 1, 1, 1, 1, 1, 1, 1, 1, 1, 1, 1, 1, 1], // suspended, E0H to EFH
    [1, 1, 1, 1, 1, 1, 1, 1, 1, 1, 1, 1, 1, 1, 1, 4], // suspended, F0H to FFH
];

// The place of a state in the table.
fn row_of(ph: Phase) -> usize
    ensures { result ≡ row_of ph }
{
    match ph {
        Phase::Free => 0,
        Phase::EraseAwaited => 1,
        Phase::DataAwaited => 2,
        Phase::Programming(_) => 3,
        Phase::Erasing => 4,
        Phase::Suspending(_) => 5,
        Phase::Suspended => 6,
    }
}

// An entry by its line and column.
fn read_entry(line: usize, column: usize) -> u8
    requires { (line < 112) × (column < 16) }
    ensures { result ≡ entry_in line column }
{
    COMMANDS[line][column]
}

// The entry in a state that has so many before it, for the low byte of what the cycle carries; past the seven states none is read.
fn entry(row: usize, v: u16) -> u8
    ensures { result ≡ entry_at row (v % 256) }
{
    if 6 < row {
        return REFUSE;
    }
    let b = v % 256;
    read_entry(row * 16 + (b / 16) as usize, (b % 16) as usize)
}

// 10H: devices 5 to 8 await data, devices 1 to 4 know no such command.
fn for_large(part: Part) -> Action
    ensures { result ≡ for_large part }
{
    if device::is_large(part) {
        return Action::AwaitData;
    }
    Action::Refuse
}

// What an action number asks for.
fn action_for(part: Part, n: u8) -> Action
    ensures { result ≡ action_for part n }
{
    match n {
        IGNORE => Action::Ignore,
        STORE => Action::Store,
        WRONG_SECOND => Action::WrongSecond,
        TO_ARRAY => Action::ToArray,
        TO_IDENTIFIER => Action::ToIdentifier,
        TO_STATUS => Action::ToStatus,
        CLEAR => Action::Clear,
        AWAIT_ERASE => Action::AwaitErase,
        AWAIT_DATA => Action::AwaitData,
        AWAIT_DATA_LARGE => for_large(part),
        CONFIRM => Action::Confirm,
        SUSPEND => Action::Suspend,
        RESUME => Action::Resume,
        _ => Action::Refuse,
    }
}

// The action of a write, read off the table: the state's row, and the low byte of what the cycle carries.
pub fn action(part: Part, ph: Phase, c: Cycle) -> Action
    ensures { result ≡ action_of part ph (command_of c) }
{
    action_for(part, entry(row_of(ph), c.data))
}
