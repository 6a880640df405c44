//! Buffers of words: what they hold, as words and as bytes, and threads that read the same buffer.
ghost use Rattle.std.specs.Prelude.{◌≡◌, IfOk, length};

use cm_words::WordBuf;
use std::alloc::Global;
use std::test::Fail;
use std::thread;
use std::thread::Threads;

// Three words, with room for one more.
fn three_words(alloc: Global) -> Result<WordBuf, Fail>
    ensures len { IfOk result (λ words. length words.words ≡ 3) }
    ensures room { IfOk result (λ words. words.capacity ≡ 4) }
{
    let mut words = WordBuf::with_capacity(alloc, 4)?;
    words.push(0x0807_0605_0403_0201);
    words.push(7);
    words.push(u64::MAX);
    Ok(words)
}

// Whether there are three words, with room for this many more.
fn has_three(words: &WordBuf, room: usize) -> bool {
    words.len() == 3 && words.room() == room
}

// Whether the second word is 7, and 9 once it is set, and a word after the last uses all the room.
fn set_and_push(words: &mut WordBuf) -> bool
    requires len { length words.old.words ≡ 3 }
    requires room { words.old.capacity ≡ 4 }
{
    let before = words.get(1);
    words.set(1, 9);
    words.push(0);
    before == 7 && words.room() == 0 && words.get(1) == 9
}

#[test]
fn words_are_kept(rt: HostRuntime) -> Result<(), Fail> {
    let mut words = three_words(rt.alloc())?;
    assert!(rt; has_three(&words, 1));
    assert!(rt; set_and_push(&mut words));
    assert!(rt; words.as_slice() == [0x0807_0605_0403_0201, 9, u64::MAX, 0].as_slice());
    Ok(())
}

// Whether a copy of these words has them, with room for no more, and none after them.
fn is_copied_whole(words: &mut WordBuf) -> bool
    requires len { length words.old.words ≡ 3 }
    requires room { words.old.capacity ≡ 3 }
{
    let is_equal = words.as_slice() == [5, u64::MAX, 0].as_slice();
    let room = words.room();
    words.extend_from_slice(&[]);
    is_equal && room == 0 && words.len() == 3
}

// Whether one more word is appended to the three.
fn is_extended(words: &mut WordBuf) -> bool
    requires len { length words.old.words ≡ 3 }
    requires room { words.old.capacity ≡ 4 }
{
    let room = words.room();
    words.extend_from_slice(&[9]);
    room == 1 && words.as_slice() == [0x0807_0605_0403_0201, 7, u64::MAX, 9].as_slice()
}

#[test]
fn slices_are_copied_whole(rt: HostRuntime) -> Result<(), Fail> {
    let mut copy = WordBuf::from_slice(rt.alloc(), &[5, u64::MAX, 0])?;
    assert!(rt; is_copied_whole(&mut copy));
    drop(copy);
    let mut words = three_words(rt.alloc())?;
    assert!(rt; is_extended(&mut words));
    Ok(())
}

// The first two words as bytes, and then the third instead of the second.
fn bytes_of(words: &WordBuf) -> ([u8; 16], [u8; 16])
    requires { length words.now.words ≡ 3 }
{
    let mut bytes = [0u8; 16];
    words.bytes_into(0, &mut bytes);
    let first = bytes;
    words.bytes_into(2, &mut bytes[8..]);
    words.bytes_into(3, &mut []);
    (first, bytes)
}

#[test]
fn bytes_are_the_words_lowest_first(rt: HostRuntime) -> Result<(), Fail> {
    let words = three_words(rt.alloc())?;
    let (first, last) = bytes_of(&words);
    assert!(rt; first == [1, 2, 3, 4, 5, 6, 7, 8, 7, 0, 0, 0, 0, 0, 0, 0]);
    assert!(rt; last[8..] == [255u8; 8][..]);
    Ok(())
}

#[test]
fn a_buffer_of_no_words_takes_none(rt: HostRuntime) -> Result<(), Fail> {
    assert!(rt; WordBuf::with_capacity(rt.alloc(), 1 << 61).is_err());
    let words = WordBuf::with_capacity(rt.alloc(), 0)?;
    assert!(rt; words.len() == 0 && words.room() == 0);
    Ok(())
}

// All words, one after another, in one number.
fn mix(words: &WordBuf) -> u64 {
    let mut all = 0u64;
    for word in words.as_slice() {
        all = all.rotate_left(7) ^ *word;
    }
    all
}

// Whether two threads that share the buffer read the same.
fn read_in_two(rt: &impl Threads, words: &WordBuf, expected: u64) -> bool {
    let (one, other) = thread::join(rt, || mix(words), || mix(words));
    one == expected && other == expected
}

// Two threads read the buffer at once, and then it moves to a third.
#[test]
fn two_threads_read_one_buffer(rt: HostRuntime) -> Result<(), Fail> {
    let words = three_words(rt.alloc())?;
    let here = mix(&words);
    assert!(rt; read_in_two(&rt, &words, here));
    let Ok(third) = thread::spawn(&rt, move || mix(&words)) else {
        return Err(Fail::from("no thread can be made"));
    };
    assert_eq!(rt; third.join(&rt), here);
    Ok(())
}
