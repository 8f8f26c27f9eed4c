//! A list in a lent table: the first `len` elements are in use, and the others keep what they held.

#![tactic(auto)]

ghost use Rattle.std.specs.Prelude.{◌≡◌};
ghost use Rattle.list.specs.Rows.{pushed, item_at, removed};

/// Writes `item` behind the elements in use, and answers how many are in use then.
pub fn push<T: Copy>(table: &mut [T], len: usize, item: T) -> Option<usize>
    ensures { pushed table.old len item ≡ (result, table.new) }
{
    if len >= table.len() {
        return None;
    }
    table[len] = item;
    Some(len + 1)
}

/// The element at `index` among those in use.
pub fn read<T: Copy>(table: &[T], len: usize, index: usize) -> Option<T>
    ensures { result ≡ item_at table.now len index }
{
    table[..len.min(table.len())].get(index).copied()
}

/// Takes out the element at `index` among those in use; those behind it move one place down.
pub fn remove<T: Copy>(table: &mut [T], len: usize, index: usize) -> Option<T>
    ensures { removed table.old len index ≡ (result, table.new) }
{
    let item = read(table, len, index)?;
    let used = len.min(table.len());
    table.copy_within(index + 1..used, index);
    Some(item)
}
