// Exported answers in a check sum.
use hub::answers::Answer;
use replay::add_number;

// A sum with a value more, as the four bytes of a number.
pub(crate) fn add_value(sum: u32, value: u64) -> u32 {
    add_number(sum, (value % 0x100000000) as u32)
}

// A sum with values more.
pub(crate) fn add_values(sum: u32, values: &[u64]) -> u32 {
    values
        .iter()
        .fold(sum, |so_far, value| add_value(so_far, *value))
}

// A sum with an answer more: its number and its values.
pub(crate) fn add_answer(sum: u32, answer: Answer) -> u32 {
    add_values(add_value(sum, answer.number), &answer.values)
}
