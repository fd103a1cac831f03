//! How much is done at once, how long is waited, and from when on something counts: what the daemon's speed rests on, and no
//! contract does.

/// How many bytes are read at once of a connection, so that none has the thread for long.
pub(crate) const PIECE: usize = 8_192;

/// How many bytes are read at once of a file of messages.
pub(crate) const FILE_PIECE: usize = 65_536;

/// How many events a thread takes at once.
pub(crate) const EVENTS: usize = 256;

/// How many connections of those that have requests, and of the others, have a turn before a thread looks for events
/// again.
pub(crate) const TURNS: usize = 32;

/// After how many microseconds of such turns it looks for events all the same, so that who asks little waits for few of many.
pub(crate) const BATCH: u64 = 1_000;

/// How often what is held back is sent for, before other connections have their turn.
pub(crate) const REFILLS: usize = 8;

/// How many messages of the second database are taken out before others are written.
pub(crate) const TAKEN: usize = 64;

/// How many requests are looked at in a turn, where they may go to several places: as many as a hub takes in one.
pub(crate) const LOOKED_AT: usize = 64;

/// From how many microseconds under the lock on a turn of submissions counts as slow: others have theirs before the next.
pub(crate) const SLOW: u64 = 200;

/// How many times as often as its patience is long the daemon looks whether that is at its end.
pub(crate) const LOOKS: u64 = 8;

/// From which weight on the jobs of a round are composed by more than one: about how many rows are looked at in the time
/// that a thread takes to start.
pub(crate) const HEAVY: usize = 4_000;

/// How many sessions are in the first group, where they are given their messages group by group.
pub(crate) const FIRST_GROUP: usize = 4;

/// Of how many sessions it is looked at once whether they are owed nothing, after they were told group by group.
pub(crate) const LOOKED_FOR: usize = 8;

/// For how many microseconds the thread that submitted gives sessions their messages while the pump is called and begins.
pub(crate) const FIRST_TIME: u64 = 150;

/// After how many rounds of the pump the journal begins anew, which else grows.
pub(crate) const JOURNAL_ROUNDS: u64 = 65_536;

/// How many times as long as its round took the pump pauses at most, where much comes.
pub(crate) const PAUSES: u64 = 3;

/// For how many microseconds the pump pauses at least. A round that took less is brief.
pub(crate) const BRIEF: u64 = 100;

/// Up to how many microseconds a round takes that another thread runs where little comes.
pub(crate) const SHORT: u64 = 1_000;

/// How many microseconds after a round a request that comes counts as of a client that waits to be told, and not of one that asked
/// meanwhile.
pub(crate) const CALM: u64 = 64;

/// For how many microseconds the pump pauses at most before it looks whether much comes.
pub(crate) const SOON: u64 = 500;

/// How many milliseconds of what a round took count at most.
pub(crate) const LONG: u64 = 33;

/// How many microseconds of it count at most for each message that it gave, also where the processor was taken away in the
/// midst of it.
pub(crate) const EACH: u64 = 33;

/// For how many milliseconds the pump pauses after a round for which memory was refused.
pub(crate) const REFUSED: u64 = 3;

/// For how many milliseconds a thread pauses where memory was refused for what it is to try again, as for the end of a session.
pub(crate) const RETRY_PAUSE: u64 = 1;

/// For how many milliseconds the daemon waits after a connection couldn't be accepted, as where no file descriptor is left.
pub(crate) const ACCEPT_PAUSE: u64 = 100;

/// For how many milliseconds nothing more is written after a notice: what happens meanwhile is counted in the next.
pub(crate) const NOTICE_PAUSE: u64 = 1_000;

/// How often it is looked meanwhile whether the daemon ends.
pub(crate) const NOTICE_LOOKS: u64 = 20;

/// How many lines of the log wait to be written at most. Those that come then are left out, and counted.
pub(crate) const LOG_LINES: usize = 4_096;

/// How many bytes the stack of a thread has.
pub(crate) const STACK: usize = 1_048_576;
