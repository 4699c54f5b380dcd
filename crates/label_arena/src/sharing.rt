// What may cross threads: a missing proof of it shows here.
use crate::chunks::Chunk;
use crate::rounds::Round;
use crate::seats::Seat;

fn shared<R: Sync>(_value: &R) {}

fn moved<R: Send>(_value: &R) {}

/// Where `T: Send`, threads may share a round, and a seat or a chunk may move between them. It does nothing: its bounds are
/// what is proved.
pub fn cross_threads<T: Send>(round: &Round<T>, seat: &Seat<T>, chunk: &Chunk<T>) {
    shared(round);
    moved(round);
    moved(seat);
    moved(chunk);
}
