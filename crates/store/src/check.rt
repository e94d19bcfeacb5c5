// The rooms of the lent buffers, and the check of a store.
ghost use Rattle.std.specs.Prelude.{◌≡◌, ◌+◌, ◌*◌, ◌<◌, ◌≤◌, length};
ghost use Rattle.fields.specs.Capacities.{most_data};
ghost use Rattle.store.specs.Store.{table_length, room_of, transfer_room, sum_at};
ghost use Rattle.store.specs.Spots.{tally_of};

use fields::{DATA, Refusal, SECTORS, TRACKS, TRANSFER};

// The one length of a table: a count, 204 heads and 2,048 rows.
pub const TABLE: usize = 17609;

// What the check of a store told: how many sectors and bytes it holds, and where its rows end.
#[derive(Clone, Copy)]
pub struct Tallied {
    pub sectors: usize,
    pub bytes: usize,
    pub end: usize,
}

// How many bytes a data buffer may hold.
pub fn room_of(bytes: &[u8]) -> usize
    ensures { (result ≡ room_of bytes.now) × (result ≤ most_data) }
{
    bytes.len().min(DATA)
}

// How many bytes a transfer buffer may take.
pub fn transfer_room(transfer: &[u8]) -> usize
    ensures { (result ≡ transfer_room transfer.now) × (result ≤ length transfer.now) }
{
    transfer.len().min(TRANSFER)
}

// The sum of the stored lengths of `count` rows.
pub fn rows_len(table: &[u8], start: usize, count: usize) -> usize
    requires { (start + 8 * count ≤ table_length) × (count < 256) }
    ensures { (result ≡ sum_at table.now start count) × (result ≤ 65535 * count) }
{
    let mut sum: usize = 0;
    for k in 0..count {
        sum += tracks::row_at(table, start + 8 * k).stored as usize;
    }
    sum
}

// Checks a store in one pass: how much it holds and where its rows end.
pub fn tally(table: &[u8], room: usize) -> Result<Tallied, Refusal>
    ensures { result ≡ tally_of table.now room }
{
    if table.len() != TABLE {
        return Err(Refusal::BadStore);
    }
    let tracks = fields::byte(table, 0);
    if TRACKS < tracks {
        return Err(Refusal::BadStore);
    }
    let mut at: usize = 1;
    let mut sectors: usize = 0;
    let mut bytes: usize = 0;
    for _ in 0..tracks {
        let count = fields::byte(table, at + 5);
        if SECTORS < sectors + count {
            return Err(Refusal::BadStore);
        }
        bytes += rows_len(table, at + 6, count);
        sectors += count;
        at += 6 + 8 * count;
    }
    if room < bytes {
        return Err(Refusal::BadStore);
    }
    Ok(Tallied {
        sectors,
        bytes,
        end: at,
    })
}
