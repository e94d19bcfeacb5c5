// The exported calls, for C and Rust: the static library libhost.a. Each makes the call of `host` that has its name, promises the same and does no
// more; what it does stands there, and in docs/HOST.md. A slice is a pointer and a length.
#![tactic(auto)]

ghost use Rattle.std.specs.Prelude.{◌≡◌, not, eqb};
ghost use Rattle.store.specs.Store.{table_length, disk_of};
ghost use Rattle.store.specs.Calls.{outcome, load_of, fresh_of, geometry_of, has_of};
ghost use Rattle.layout.specs.Layout.{controller_length};
ghost use Rattle.sheet.specs.Calls.{longest_sheet};
ghost use Rattle.words.specs.Words.{geometry_word, has_word};
ghost use Rattle.host.specs.Calls.{answered, new_on, set_motor_on, motor_on, track_on, set_disk_on, disk_on, setting_on, status_on};
ghost use Rattle.host.specs.Calls.{read_on, sending, write_on, write_sheet_on, taken_up, read_sheet_on, worded, image_length_on, write_image_on, part_on};

// ---- lengths

#[unsafe(no_mangle)]
pub extern "C" fn floppy_controller_length() -> u64
    ensures { result ≡ controller_length }
{
    host::floppy_controller_length()
}

#[unsafe(no_mangle)]
pub extern "C" fn disk_table_length() -> u64
    ensures { result ≡ table_length }
{
    host::disk_table_length()
}

#[unsafe(no_mangle)]
pub extern "C" fn floppy_sheet_length() -> u64
    ensures { result ≡ longest_sheet }
{
    host::floppy_sheet_length()
}

// ---- the controller

#[unsafe(no_mangle)]
pub extern "C" fn floppy_new_with(controller: &mut [u8], setting: u8) -> u64
    ensures { answered result controller.new ≡ new_on setting controller.old }
{
    host::floppy_new_with(controller, setting)
}

#[unsafe(no_mangle)]
pub extern "C" fn floppy_new(controller: &mut [u8]) -> u64
    ensures { answered result controller.new ≡ new_on 0 controller.old }
{
    host::floppy_new(controller)
}

#[unsafe(no_mangle)]
pub extern "C" fn floppy_setting(controller: &[u8]) -> u64
    ensures { result ≡ setting_on controller.now }
{
    host::floppy_setting(controller)
}

#[unsafe(no_mangle)]
pub extern "C" fn floppy_set_motor(controller: &mut [u8], on: u8) -> u64
    ensures { answered result controller.new ≡ set_motor_on (not (eqb on 0)) controller.old }
{
    host::floppy_set_motor(controller, on)
}

#[unsafe(no_mangle)]
pub extern "C" fn floppy_motor(controller: &[u8]) -> u64
    ensures { result ≡ motor_on controller.now }
{
    host::floppy_motor(controller)
}

#[unsafe(no_mangle)]
pub extern "C" fn floppy_current_track(controller: &[u8]) -> u64
    ensures { result ≡ track_on controller.now }
{
    host::floppy_current_track(controller)
}

#[unsafe(no_mangle)]
pub extern "C" fn floppy_set_disk(controller: &mut [u8], present: u8) -> u64
    ensures { answered result controller.new ≡ set_disk_on (not (eqb present 0)) controller.old }
{
    host::floppy_set_disk(controller, present)
}

#[unsafe(no_mangle)]
pub extern "C" fn floppy_disk(controller: &[u8]) -> u64
    ensures { result ≡ disk_on controller.now }
{
    host::floppy_disk(controller)
}

#[unsafe(no_mangle)]
pub extern "C" fn floppy_read_status(controller: &mut [u8]) -> u64
    ensures { answered result controller.new ≡ status_on controller.old }
{
    host::floppy_read_status(controller)
}

#[unsafe(no_mangle)]
pub extern "C" fn floppy_read_cmd(controller: &mut [u8], transfer: &[u8]) -> u64
    ensures { answered result controller.new ≡ read_on controller.old transfer.now }
{
    host::floppy_read_cmd(controller, transfer)
}

#[unsafe(no_mangle)]
pub extern "C" fn floppy_write_cmd(
    controller: &mut [u8],
    table: &mut [u8],
    bytes: &mut [u8],
    transfer: &mut [u8],
    b: u8,
) -> u64
    ensures { sending result controller.new table.new bytes.new transfer.new
        ≡ write_on controller.old table.old bytes.old transfer.old b }
{
    host::floppy_write_cmd(controller, table, bytes, transfer, b)
}

// ---- sheets

#[unsafe(no_mangle)]
pub extern "C" fn floppy_write_sheet(controller: &[u8], transfer: &[u8], sheet: &mut [u8]) -> u64
    ensures { answered result sheet.new ≡ write_sheet_on controller.now transfer.now sheet.old }
{
    host::floppy_write_sheet(controller, transfer, sheet)
}

#[unsafe(no_mangle)]
pub extern "C" fn floppy_read_sheet(controller: &mut [u8], transfer: &mut [u8], sheet: &[u8]) -> u64
    ensures { taken_up result controller.new transfer.new
        ≡ read_sheet_on controller.old transfer.old sheet.now }
{
    host::floppy_read_sheet(controller, transfer, sheet)
}

// ---- the disk

#[unsafe(no_mangle)]
pub extern "C" fn disk_new(image: &[u8], table: &mut [u8], bytes: &mut [u8]) -> u64
    ensures { outcome result table.new bytes.new
        ≡ worded (load_of image.now table.old bytes.old) }
{
    host::disk_new(image, table, bytes)
}

#[unsafe(no_mangle)]
pub extern "C" fn disk_new_formatted(table: &mut [u8], bytes: &mut [u8]) -> u64
    ensures { outcome result table.new bytes.new ≡ worded (fresh_of table.old bytes.old) }
{
    host::disk_new_formatted(table, bytes)
}

#[unsafe(no_mangle)]
pub extern "C" fn disk_image_length(table: &[u8], bytes: &[u8]) -> u64
    ensures { result ≡ image_length_on table.now bytes.now }
{
    host::disk_image_length(table, bytes)
}

#[unsafe(no_mangle)]
pub extern "C" fn disk_write_image(table: &[u8], bytes: &[u8], image: &mut [u8]) -> u64
    ensures { answered result image.new
        ≡ write_image_on table.now bytes.now image.old }
{
    host::disk_write_image(table, bytes, image)
}

#[unsafe(no_mangle)]
pub extern "C" fn disk_geometry(table: &[u8], bytes: &[u8]) -> u64
    ensures { result ≡ geometry_word (geometry_of (disk_of table.now bytes.now)) }
{
    host::disk_geometry(table, bytes)
}

#[unsafe(no_mangle)]
pub extern "C" fn disk_has_sector(
    table: &[u8],
    bytes: &[u8],
    side: u8,
    cylinder: u8,
    c: u8,
    h: u8,
    r: u8,
    n: u8,
) -> u64
    ensures { result ≡ has_word (has_of (disk_of table.now bytes.now) side cylinder (record { c = c; h = h; r = r; n = n })) }
{
    host::disk_has_sector(table, bytes, side, cylinder, c, h, r, n)
}

#[unsafe(no_mangle)]
pub extern "C" fn disk_sector(
    table: &[u8],
    bytes: &[u8],
    side: u8,
    cylinder: u8,
    c: u8,
    h: u8,
    r: u8,
    n: u8,
) -> u64
    ensures { result ≡ part_on table.now bytes.now side cylinder (record { c = c; h = h; r = r; n = n }) }
{
    host::disk_sector(table, bytes, side, cylinder, c, h, r, n)
}
