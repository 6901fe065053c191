// Lists that are lent.

// The first words of a lent list, or all of it if it has no more.
pub fn front(list: &mut [u32], words: u32) -> &mut [u32] {
    let count = words as usize;
    if count > list.len() {
        return list;
    }
    &mut list[..count]
}
