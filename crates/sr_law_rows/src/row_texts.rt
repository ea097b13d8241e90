//! The worked rows as texts: the numbers of a row's setup that differ from the scene's, the lines of a lawful list, and edits of it, each with
//! the line and the clause that follow from the definitions.

/// Lines are written as they are printed. `edit 3 order 3 LINE` puts another line at the place of line 3, and then line 3 breaks Order; `drop 3`
/// leaves the line out, and `drop all` every line; `ok` in place of a clause says that the list is still lawful.
///
/// The clients are A to F, 10.0.0.9 to 10.0.0.14, all from port 4000, and G, which is 10.0.0.14 from port 1024 and has A's bucket of way 1 but not of way
/// 2, where there are two. Where it isn't said otherwise all keys clash in both ways.
pub(crate) const ROWS: [&str; 18] = [
    // Repeated SYN.
    "give 1 0 0 1
packet 1 2 3 0 0/10.0.0.9:4000 open to 0 0 1
packet 2 4 5 0 0/10.0.0.9:4000 open to 0 0 1
reserve 6 0/10.0.0.9:4000 w1b0c0
place 8 0/10.0.0.9:4000 w1b0c0
packet 3 10 11 0 0/10.0.0.9:4000 open held clash
answer 12 0 1 0/10.0.0.9:4000 to 0 0 1
edit 3 order 3 packet 2 3 5 0 0/10.0.0.9:4000 open to 0 0 1
edit 7 server 7 answer 12 0 1 0/10.0.0.9:4000 to 1 0 1
edit 6 cause 6 packet 3 10 11 0 0/10.0.0.9:4000 open held hold
drop 7 final 7",
    // Clash to full key, and no place: a row that is only reserved; a row that is taken; a row that wasn't reserved; the same answer twice.
    "give 1 0 0 1
packet 1 2 3 0 0/10.0.0.9:4000 open to 0 0 1
reserve 4 0/10.0.0.9:4000 w1b0c0
place 6 0/10.0.0.9:4000 w1b0c0
packet 2 8 9 0 0/10.0.0.10:4000 open held clash
reserve 10 0/10.0.0.10:4000 f0
place 12 0/10.0.0.10:4000 f0
answer 14 0 1 0/10.0.0.10:4000 to 0 0 1
packet 3 15 16 0 0/10.0.0.11:4000 open held clash
reserve 17 0/10.0.0.11:4000 f1
place 19 0/10.0.0.11:4000 f1
answer 21 0 2 0/10.0.0.11:4000 to 0 0 1
packet 4 22 23 0 0/10.0.0.12:4000 open held clash
reserve 24 0/10.0.0.12:4000 f2
place 26 0/10.0.0.12:4000 f2
answer 28 0 3 0/10.0.0.12:4000 to 0 0 1
packet 5 29 30 0 0/10.0.0.13:4000 open held clash
reserve 31 0/10.0.0.13:4000 f3
place 33 0/10.0.0.13:4000 f3
answer 35 0 4 0/10.0.0.13:4000 to 0 0 1
packet 6 36 37 0 0/10.0.0.14:4000 open held clash
answer 38 0 5 0/10.0.0.14:4000 noplace
drop 19 cause 21
edit 10 order 10 reserve 17 0/10.0.0.11:4000 f0
edit 7 order 7 place 12 0/10.0.0.10:4000 f1
edit 12 final 23 answer 21 0 1 0/10.0.0.11:4000 to 0 0 1",
    // A late clash is withdrawn: the slot is still taken; it is taken by the other key; the row has its entry.
    "give 1 0 0 1
packet 1 2 3 0 0/10.0.0.9:4000 open to 0 0 1
packet 2 4 5 0 0/10.0.0.10:4000 open to 0 0 1
reserve 6 0/10.0.0.9:4000 w1b0c0
clear 8 0/10.0.0.9:4000 w1b0c0
reserve 9 0/10.0.0.9:4000 f0
place 11 0/10.0.0.9:4000 f0
reserve 13 0/10.0.0.10:4000 w1b0c0
place 15 0/10.0.0.10:4000 w1b0c0
drop 5 order 7
edit 5 order 5 clear 8 0/10.0.0.10:4000 w1b0c0
edit 8 order 8 place 13 0/10.0.0.9:4000 f0",
    // An update: the last group may be cut short; the version is in use; the pool wasn't the last given; nothing was recorded before the
    // hold; an open connection keeps its pool; the opener came after the switch; no entry clashes; nothing set the filter; a connection that
    // is opened after the switch uses the new pool.
    "change 1
give 1 0 0 1
give 2 0 1 2
record 3 0
packet 1 5 6 0 0/10.0.0.9:4000 open to 0 0 1
hold 7 0
switch 9 0 2
packet 2 11 12 0 0/10.0.0.9:4000 data to 0 0 1
packet 3 13 14 0 0/10.0.0.10:4000 open held transit
reserve 15 0/10.0.0.10:4000 f0
place 17 0/10.0.0.10:4000 f0
answer 19 0 1 0/10.0.0.10:4000 to 1 1 2
reserve 20 0/10.0.0.9:4000 w1b0c0
place 22 0/10.0.0.9:4000 w1b0c0
finish 24 0
drop 14 ok 0
edit 2 number 2 give 2 0 0 2
edit 6 order 6 switch 9 0 1
drop 3 order 4
edit 7 same 7 packet 2 11 12 0 0/10.0.0.9:4000 data to 1 1 2
edit 8 cause 8 packet 3 13 14 0 0/10.0.0.10:4000 open held hold
edit 8 cause 8 packet 3 13 14 0 0/10.0.0.10:4000 open held clash
drop 4 cause 7
edit 11 newer 11 answer 19 0 1 0/10.0.0.10:4000 to 0 0 1",
    // Ring full: only an opener; only where the ring may be full.
    "ring 1
give 1 0 0 1
packet 1 2 3 0 0/10.0.0.9:4000 open to 0 0 1
packet 2 4 5 0 0/10.0.0.10:4000 open full
edit 3 cause 3 packet 2 4 5 0 0/10.0.0.10:4000 data full
drop 2 cause 2",
    // Version numbers: an open connection has the version; there is no such version; one sweep isn't a quiet time; sweeps are numbered, and an
    // idle time apart.
    "versions 2
change 1
change 0
give 1 0 0 1
packet 1 2 3 0 0/10.0.0.9:4000 open to 0 0 1
reserve 4 0/10.0.0.9:4000 w1b0c0
place 6 0/10.0.0.9:4000 w1b0c0
give 8 0 1 2
record 9 0
hold 11 0
switch 13 0 2
finish 15 0
sweep 1 17 18 1
sweep 2 19 20 2
retire 21 0/10.0.0.9:4000
clear 22 0/10.0.0.9:4000 w1b0c0
give 25 0 0 3
record 26 0
drop 12 number 13
edit 14 number 14 give 25 0 2 3
drop 11 retire 11
edit 11 retire 11 sweep 3 19 20 2
edit 11 retire 11 sweep 2 19 20 1",
    // A change is refused where both versions are in use, and so isn't before the update; nothing opens with a pool before it is given.
    "versions 2
change 1
change 0
give 1 0 0 1
packet 1 2 3 0 0/10.0.0.9:4000 open to 0 0 1
give 8 0 1 2
record 9 0
hold 11 0
switch 13 0 2
finish 15 0
refuse 17 1
drop 2 cause 7
edit 2 server 2 packet 1 2 3 0 0/10.0.0.9:4000 open to 1 1 2
edit 3 cause 3 refuse 8 1",
    // No room: four rows for six connections. A row is taken; it is another key's; an update records before it holds; a packet has no line.
    "change 1
give 1 0 0 1
packet 1 2 3 0 0/10.0.0.9:4000 open to 0 0 1
packet 2 4 5 0 0/10.0.0.10:4000 open to 0 0 1
packet 3 6 7 0 0/10.0.0.11:4000 open to 0 0 1
packet 4 8 9 0 0/10.0.0.12:4000 open to 0 0 1
packet 5 10 11 0 0/10.0.0.13:4000 open to 0 0 1
packet 6 12 13 0 0/10.0.0.14:4000 open to 0 0 1
give 14 0 1 2
record 15 0
reserve 17 0/10.0.0.9:4000 f0
place 19 0/10.0.0.9:4000 f0
reserve 21 0/10.0.0.10:4000 f1
place 23 0/10.0.0.10:4000 f1
reserve 25 0/10.0.0.11:4000 f2
place 27 0/10.0.0.11:4000 f2
reserve 29 0/10.0.0.12:4000 f3
place 31 0/10.0.0.12:4000 f3
edit 16 order 16 reserve 29 0/10.0.0.12:4000 f0
edit 17 order 17 place 31 0/10.0.0.13:4000 f3
edit 9 order 9 hold 15 0
drop 5 final 17",
    // Close, down, opened anew: without an end it must be quiet for three sweeps; another connection isn't open; it was never placed; the
    // server is known to be down; it isn't down.
    "lives 3
give 1 0 0 1
packet 1 2 3 0 0/10.0.0.9:4000 open to 0 0 1
packet 2 4 5 0 0/10.0.0.9:4000 end to 0 0 1
reserve 6 0/10.0.0.9:4000 w1b0c0
place 8 0/10.0.0.9:4000 w1b0c0
sweep 1 10 11 1
sweep 2 12 13 2
retire 14 0/10.0.0.9:4000
clear 15 0/10.0.0.9:4000 w1b0c0
packet 3 17 18 0 0/10.0.0.9:4000 open to 0 0 1
down 19 0
sweep 3 20 21 5
reserve 22 0/10.0.0.9:4000 w1b0c0
place 24 0/10.0.0.9:4000 w1b0c0
packet 4 26 27 0 0/10.0.0.9:4000 data down 0 0 1
edit 3 retire 8 packet 2 4 5 0 0/10.0.0.9:4000 data to 0 0 1
edit 8 retire 8 retire 14 0/10.0.0.10:4000
drop 5 retire 7
edit 15 cause 15 packet 4 26 27 0 0/10.0.0.9:4000 data to 0 0 1
drop 11 cause 14",
    // Quiet: an end may be printed after the retirement that it supports; a connection that sends isn't quiet; openers don't count.
    "lives 2
pipes 2
give 1 0 0 1
packet 1 2 3 0 0/10.0.0.9:4000 open to 0 0 1
reserve 6 0/10.0.0.9:4000 w1b0c0
place 8 0/10.0.0.9:4000 w1b0c0
sweep 1 10 11 1
packet 2 12 13 0 0/10.0.0.10:4000 data to 0 0 1
sweep 2 14 15 2
retire 16 0/10.0.0.9:4000
packet 3 5 18 1 0/10.0.0.9:4000 end to 0 0 1
edit 9 retire 8 packet 3 5 18 1 0/10.0.0.9:4000 data to 0 0 1
edit 6 retire 8 packet 2 12 13 0 0/10.0.0.9:4000 data to 0 0 1
edit 6 final 10 packet 2 12 13 0 0/10.0.0.9:4000 open to 0 0 1",
    // A move: the place isn't one of the key; the place wasn't taken.
    "buckets 2
give 1 0 0 1
packet 1 2 3 0 0/10.0.0.9:4000 open to 0 0 1
reserve 4 0/10.0.0.9:4000 w1b0c0
place 6 0/10.0.0.9:4000 w1b0c0
packet 2 8 9 0 0/10.0.0.14:1024 open held clash
reserve 10 0/10.0.0.9:4000 w2b0c0
place 12 0/10.0.0.9:4000 w2b0c0
clear 14 0/10.0.0.9:4000 w1b0c0
reserve 15 0/10.0.0.14:1024 w2b1c0
place 17 0/10.0.0.14:1024 w2b1c0
answer 19 0 1 0/10.0.0.14:1024 to 0 0 1
edit 9 order 9 reserve 15 0/10.0.0.14:1024 w2b0c0
drop 6 order 6",
    // A hold: an opener that entered after it is held until the switch; nothing clashes, and nothing held before the hold.
    "change 1
give 1 0 0 1
give 2 0 1 2
record 3 0
hold 5 0
packet 1 6 7 0 0/10.0.0.9:4000 open held hold
switch 9 0 2
reserve 10 0/10.0.0.9:4000 w1b0c0
place 12 0/10.0.0.9:4000 w1b0c0
answer 13 0 1 0/10.0.0.9:4000 to 1 1 2
finish 14 0
edit 5 cause 5 packet 1 6 7 0 0/10.0.0.9:4000 open held clash
drop 4 cause 4",
    // An answer after its server was taken down: the key goes nowhere, and not to that server.
    "give 1 0 0 1
packet 1 2 3 0 0/10.0.0.9:4000 open to 0 0 1
reserve 4 0/10.0.0.9:4000 w1b0c0
place 6 0/10.0.0.9:4000 w1b0c0
packet 2 7 8 0 0/10.0.0.10:4000 open held clash
reserve 9 0/10.0.0.10:4000 f0
down 10 0
clear 11 0/10.0.0.10:4000 f0
answer 12 0 1 0/10.0.0.10:4000 down 0 0 1
edit 9 cause 9 answer 12 0 1 0/10.0.0.10:4000 to 0 0 1
drop 7 cause 8",
    // The filter holds an opener that entered before the end of the update and is out after it; not one that entered later.
    "change 1
give 1 0 0 1
give 2 0 1 2
record 3 0
packet 1 4 5 0 0/10.0.0.9:4000 open to 0 0 1
hold 6 0
switch 8 0 2
reserve 9 0/10.0.0.9:4000 w1b0c0
place 11 0/10.0.0.9:4000 w1b0c0
finish 13 0
packet 2 10 15 0 0/10.0.0.10:4000 open held transit
reserve 16 0/10.0.0.10:4000 f0
place 18 0/10.0.0.10:4000 f0
answer 19 0 1 0/10.0.0.10:4000 to 1 1 2
edit 10 cause 10 packet 2 14 15 0 0/10.0.0.10:4000 open held transit",
    // A ring of one cell has room again once the held opener in it was answered.
    "ring 1
give 1 0 0 1
packet 1 2 3 0 0/10.0.0.9:4000 open to 0 0 1
reserve 4 0/10.0.0.9:4000 w1b0c0
place 6 0/10.0.0.9:4000 w1b0c0
packet 2 7 8 0 0/10.0.0.10:4000 open held clash
reserve 9 0/10.0.0.10:4000 f0
place 11 0/10.0.0.10:4000 f0
answer 12 0 1 0/10.0.0.10:4000 to 0 0 1
packet 3 13 14 0 0/10.0.0.11:4000 open held clash
packet 4 15 16 0 0/10.0.0.12:4000 open full
reserve 17 0/10.0.0.11:4000 f1
place 19 0/10.0.0.11:4000 f1
answer 20 0 2 0/10.0.0.11:4000 to 0 0 1
edit 9 cause 9 packet 3 13 14 0 0/10.0.0.11:4000 open full",
    // Two virtual addresses: their first pools come first, and the same client has a connection to each, each with a place of its own.
    "vips 2
give 1 0 0 1
give 2 1 0 1
packet 1 3 4 0 0/10.0.0.9:4000 open to 0 0 1
packet 2 5 6 0 1/10.0.0.9:4000 open to 0 0 1
reserve 7 0/10.0.0.9:4000 w1b0c0
place 9 0/10.0.0.9:4000 w1b0c0
reserve 10 1/10.0.0.9:4000 w1b0c1
place 12 1/10.0.0.9:4000 w1b0c1
edit 7 order 7 reserve 10 1/10.0.0.9:4000 w1b0c0
edit 4 server 4 packet 2 5 6 0 1/10.0.0.9:4000 open to 1 0 1
drop 2 order 2",
    // A clash with an entry that was cleared while the packet was under way; not with one that was cleared before.
    "give 1 0 0 1
packet 1 2 3 0 0/10.0.0.9:4000 open to 0 0 1
packet 2 4 5 0 0/10.0.0.9:4000 end to 0 0 1
reserve 6 0/10.0.0.9:4000 w1b0c0
place 8 0/10.0.0.9:4000 w1b0c0
sweep 1 10 11 1
sweep 2 12 13 2
retire 14 0/10.0.0.9:4000
clear 16 0/10.0.0.9:4000 w1b0c0
packet 3 15 18 0 0/10.0.0.10:4000 open held clash
reserve 19 0/10.0.0.10:4000 f0
place 21 0/10.0.0.10:4000 f0
answer 22 0 1 0/10.0.0.10:4000 to 0 0 1
edit 10 cause 10 packet 3 17 18 0 0/10.0.0.10:4000 open held clash",
    // A packet of which no line tells.
    "give 1 0 0 1
packet 1 2 3 0 0/10.0.0.9:4000 open to 0 0 1
drop all final 1",
];
