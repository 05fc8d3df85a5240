// Parts of two logs, side by side.
ghost use Rattle.std.specs.Prelude.{◌≡◌, ◌+◌, ◌%◌, ◌≤◌, length};
ghost use Rattle.bus_log.specs.Log.{record_size, max_records, records_in};

// As many records of either log, behind the first before.
#[derive(Clone, Copy)]
pub struct Pair<'a> {
    pub first: &'a [u8],
    pub second: &'a [u8],
    pub before: usize,
    ghost alike: { length second.now ≡ length first.now },
    ghost whole: { length first.now % record_size ≡ 0 },
    ghost numbered: { before + records_in (length first.now) ≤ max_records },
}
