//! A channel and a Board between two threads.
ghost use Rattle.std.specs.Prelude.{◌≡◌, ◌≤◌, []};
ghost use Rattle.crossbeam_channel.specs.Ends.{sends_on};
ghost use Rattle.cm_cache.specs.Channel.{channel_of};
ghost use Rattle.cm_cache.specs.Flushing.{HasCommitted};

use crate::fused::with_loader;
use crate::running::opened;
use cm_cache::{Board, Incoming, Message, Naming, NewBoard, NewChannel, Poster};
use cm_commit::Committer;
use cm_disk::SimDisk;
use std::alloc::{AllocError, Global};
use std::marker::Brand;
use std::sync::{Arc, Wait};
use std::test::*;
use std::thread;
use std::thread::Threads;

// Receives until the End comes, and then posts what is committed.
fn receive_all<K: Naming, R: Wait>(
    rt: &R,
    mut incoming: Incoming<K>,
    mut poster: Poster<K>,
    board: &Board<K>,
    committer: &Committer<SimDisk>,
) -> (Incoming<K>, Poster<K>)
    requires later { poster.receipt.number ≤ committer.now.number }
    requires has { HasCommitted K.base [] committer.now }
{
    for _ in rt.forever() {
        match incoming.receive(rt) {
            Message::Group(_) => {}
            Message::End => break,
        }
    }
    poster.post(rt, board, committer);
    (incoming, poster)
}

// Sends the End to another thread, and waits for its receipt.
fn send_end<K, R>(
    rt: R,
    alloc: Global,
    channel: NewChannel,
    board: NewBoard,
    committer: Committer<SimDisk>,
) -> Result<u64, AllocError>
where
    K: Naming + Send + Sync + 'static,
    R: Threads + Wait + Copy + Send + 'static,
    requires channel { channel_of (sends_on channel.sender) ≡ K.channel }
    requires number { board.number ≤ committer.number }
    requires has { HasCommitted K.base [] committer }
    requires board { board.table.shared.table_id ≡ K.board }
{
    let last = committer.number();
    let (mut outgoing, incoming) = channel.named::<K>();
    let (board, poster) = board.named::<K>();
    let board = Arc::new(alloc, board)?;
    let theirs = Arc::try_clone(&board)?;
    let mut reader = board.reader();
    let child = thread::spawn(
        &rt,
        move || -> (Incoming<K>, Poster<K>)
            requires later { poster.receipt.number ≤ committer.number }
            requires has { HasCommitted K.base [] committer }
        { receive_all(&rt, incoming, poster, &theirs, &committer) },
    )?;
    outgoing.send(&rt, Message::End);
    let seen = reader.wait_for(&rt, &board, last);
    let (incoming, mut poster) = child.join(&rt);
    outgoing.settle(incoming);
    poster.compare(&board, reader);
    Ok(seen.receipt.number)
}

#[test]
fn an_end_is_received_and_answered(rt: HostRuntime) -> Result<(), Fail> {
    let alloc = rt.alloc();
    let (_front, committer) = opened(alloc, with_loader(alloc)?)?;
    let channel = NewChannel::new(alloc)?;
    let board = NewBoard::new(alloc, 0)?;
    let number = send_end::<Brand, HostRuntime>(rt, alloc, channel, board, committer)?;
    assert_eq!(rt; number, 1);
    Ok(())
}
