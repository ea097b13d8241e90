//! The rows of settled lists as texts, and edits of them that are settled still, or aren't.

/// They are written as the worked rows are; `outage 1` is a change that takes server 1 down, and `clock 0` says how much time passed. `edit 3 unsettled
/// 0 LINE` puts another line at the place of line 3, and then the list isn't settled; `drop 3 settled 0` leaves it out, and it is.
pub(crate) const SETTLED: [&str; 9] = [
    // Where no time passed no change is due, and none is made or refused.
    "change 1
give 1 0 0 1
edit 1 unsettled 0 refuse 1 0
drop all settled 0",
    // A due change is made, by a whole update, with the pool's own number.
    "change 1
clock 0
give 1 0 0 1
give 2 0 1 2
record 3 0
hold 5 0
switch 7 0 2
finish 9 0
drop 6 unsettled 0
drop 2 unsettled 0
edit 2 unsettled 0 give 2 0 1 3
drop all unsettled 0",
    // It is refused where both versions are in use, and by its own position in the script.
    "versions 2
change 1
change 0
clock 0
give 1 0 0 1
packet 1 2 3 0 0/10.0.0.9:4000 open to 0 0 1
reserve 4 0/10.0.0.9:4000 w1b0c0
place 6 0/10.0.0.9:4000 w1b0c0
give 8 0 1 2
record 9 0
hold 11 0
switch 13 0 2
finish 15 0
refuse 17 1
drop 10 unsettled 0
edit 10 unsettled 0 refuse 17 0
drop 2 unsettled 0",
    // Each server that is to be taken down is, once.
    "outage 1
outage 0
clock 0
give 1 0 0 1
down 2 1
down 3 0
drop 2 unsettled 0
edit 3 unsettled 0 down 3 1",
    // An open connection has a place, and one that isn't cleared.
    "give 1 0 0 1
packet 1 2 3 0 0/10.0.0.9:4000 open to 0 0 1
reserve 4 0/10.0.0.9:4000 w1b0c0
place 6 0/10.0.0.9:4000 w1b0c0
clear 8 0/10.0.0.9:4000 w2b0c0
edit 5 unsettled 0 clear 8 0/10.0.0.9:4000 w1b0c0
drop 4 unsettled 0
drop 2 settled 0",
    // It has none where its rows are full.
    "give 1 0 0 1
packet 1 2 3 0 0/10.0.0.9:4000 open to 0 0 1
place 6 0/10.0.0.10:4000 f0
place 8 0/10.0.0.11:4000 f1
place 10 0/10.0.0.12:4000 f2
place 12 0/10.0.0.13:4000 f3
drop 6 unsettled 0",
    // A sweep is made once its time has come.
    "clock 5
give 1 0 0 1
sweep 1 10 11 5
edit 2 unsettled 0 sweep 1 10 11 4
drop 2 unsettled 0",
    // A connection that was quiet for as many sweeps as it may be is retired.
    "clock 2
give 1 0 0 1
packet 1 2 3 0 0/10.0.0.9:4000 open to 0 0 1
reserve 4 0/10.0.0.9:4000 w1b0c0
place 6 0/10.0.0.9:4000 w1b0c0
sweep 1 10 11 1
sweep 2 12 13 2
retire 14 0/10.0.0.9:4000
edit 7 unsettled 0 retire 14 0/10.0.0.10:4000",
    // It isn't where it was used since, and a packet that clashes with it may have used its entry.
    "clock 2
give 1 0 0 1
packet 1 2 3 0 0/10.0.0.9:4000 open to 0 0 1
reserve 4 0/10.0.0.9:4000 w1b0c0
place 6 0/10.0.0.9:4000 w1b0c0
sweep 1 10 11 1
sweep 2 12 13 2
packet 2 14 15 0 0/10.0.0.9:4000 data to 0 0 1
edit 7 settled 0 packet 2 14 15 0 0/10.0.0.10:4000 data to 0 0 1
edit 7 unsettled 0 packet 2 9 10 0 0/10.0.0.9:4000 data to 0 0 1
drop 7 unsettled 0",
];
