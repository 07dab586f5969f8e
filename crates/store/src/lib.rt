// The lent store: slots of 512 bytes. Every function takes the whole slice and an index, and promises the whole list.
#![tactic(auto)]

ghost use Rattle.std.specs.Prelude.{◌≡◌, ◌+◌, ◌*◌, ◌≤◌, ◌<◌, length};
ghost use Rattle.laws.specs.Places.{part, splice};
ghost use Rattle.store.specs.Store.{zeros, slot_written, slot_zeroed, slots_popped};

// Zeroes n bytes from index at.
pub fn clear(s: &mut [u8], at: usize, n: usize)
    requires { at + n ≤ length s.old }
    ensures { s.new ≡ splice s.old at (zeros n) }
{
    s[at..at + n].fill(0);
}

// ---- slots

// stays: 512 bytes are a clause here, below and in the crates above: of a lent payload a row has tested it, of a stored one the
// record's check.
// Writes the payload, and zeros behind it, into the slot at byte at.
pub fn slot_write(store: &mut [u8], at: usize, payload: &[u8])
    requires { (length payload.now ≤ 512) × (at + 512 ≤ length store.old) }
    ensures { store.new ≡ slot_written store.old at payload.now }
{
    store[at..at + payload.len()].copy_from_slice(payload);
    clear(store, at + payload.len(), 512 - payload.len());
}

// Writes the first len bytes of the slot at byte from, and zeros behind them, into a slot further down.
pub fn slot_copy(store: &mut [u8], to: usize, from: usize, len: usize)
    requires { (len ≤ 512) × (to + 512 ≤ from) × (from + 512 ≤ length store.old) }
    ensures { store.new ≡ slot_written store.old to (part store.old from len) }
{
    store.copy_within(from..from + len, to);
    clear(store, to + len, 512 - len);
}

// Zeroes the slot at byte at.
pub fn slot_zero(store: &mut [u8], at: usize)
    requires { at + 512 ≤ length store.old }
    ensures { store.new ≡ slot_zeroed store.old at }
{
    clear(store, at, 512);
}

// Removes the first of the count slots from byte base: the others move down, and the last is zeroed.
pub fn slots_pop(store: &mut [u8], base: usize, count: usize)
    requires { (1 ≤ count) × (count ≤ 16) × (base + count * 512 ≤ length store.old) }
    ensures { store.new ≡ slots_popped store.old base count }
{
    store.copy_within(base + 512..base + count * 512, base);
    clear(store, base + (count - 1) * 512, 512);
}

// Copies the first len bytes of the slot at byte at into the buffer.
pub fn slot_read(store: &[u8], at: usize, buffer: &mut [u8], len: usize)
    requires { (len ≤ 512) × (len ≤ length buffer.old) × (at + 512 ≤ length store.now) }
    ensures { buffer.new ≡ splice buffer.old 0 (part store.now at len) }
{
    buffer[..len].copy_from_slice(&store[at..at + len]);
}
