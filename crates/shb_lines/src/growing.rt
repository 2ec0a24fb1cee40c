//! Lists that have a default past their end, and grow when something is put there.
ghost use Rattle.std.specs.Prelude.{◌≡◌, OnOk, slice_index_or};
ghost use Rattle.shb_lines.specs.Growing.{IsPut};

use shb_io::NoMemory;

/// Puts an item at an index. The list grows by defaults where it has to.
///
/// # Errors
///
/// `NoMemory` where the growth is refused; the list has more defaults then, or is as it was.
pub fn put<T: Copy>(items: &mut Vec<T>, at: u32, item: T, default: T) -> Result<(), NoMemory>
    ensures { OnOk result (IsPut default at item items.old.items items.new.items) }
{
    while items.len() <= at as usize {
        items.push(default)?;
    }
    items[at as usize] = item;
    Ok(())
}

/// The item at an index, or the default past the end.
pub fn item_or<T: Copy>(items: &[T], at: u32, default: T) -> T
    ensures { result ≡ slice_index_or items.now at default }
{
    match items.get(at as usize) {
        Some(item) => *item,
        None => default,
    }
}
