// The lists of examples/, and lists of other stations.
use crate::verdict::{accepts, refuses};
use std::test::Fail;

const BELT: &[u8] = b"; Transport belt of one station.
; Inputs:  I000 start button       I001 stop circuit, 1 = closed
;          I002 guard, 1 = closed  I003 a board is at the stop
;          I004 motor protection, 1 = in order
;          I005 the head releases the board
; Outputs: Y000 motor   Y020 jam lamp   Y021 running lamp
; Cells:   F0100 the belt should run    F0101 a jam was seen
;          T00 jam watch, 250 x 20 ms = 5 s

:001
V000 I000 UF0100 DF0101 Z Z       ; start was pressed just now
LI001 A LI002 A LI004             ; 1 while every contact is closed
= 1 E DF0100 Z                    ; any open contact drops the request
F0100
  I003
    I005 U000 E D000 Z            ; a board at the stop waits for the head
  E
    U000                          ; no board: run
  Z
E
  D000
Z
NY000 L250 ST00 Z                 ; at rest the watch is kept full
V003 L250 ST00 Z                  ; a board came or left: watch again
LT00 = 0 UF0101 DF0100 D000 Z     ; five seconds with no change: a jam
J1

:000
LF0101 SY020
LF0100 SY021
J0
";

const CLAMP: &[u8] = b"; Board clamp with an end switch at either end.
; Inputs:  I000 closed   I001 open   I002 a board lies in place
;          I003 the head asks for the clamp   I004 acknowledge
; Outputs: Y000 valve    Y001 the head may come down
;          Y020 too slow Y021 both switches at once   Y022 any fault
; Cells:   F0100 to F0102 the faults   F0110 set up   T00 0.8 s

:001
NF0110 L40 ST00 UF0110 Z          /* first pass: fill the watch */
I002
  I003 U000 E D000 Z              /* close over a board only    */
E D000 Z
LY000 X LI000                     /* 1 while wish and switch differ */
= 0 L40 ST00 Z
LT00 = 0 UF0100 Z                 /* 40 intervals of 20 ms are over */
LI000 A LI001 = 1 UF0101 Z
V004 I004 DF0100 DF0101 Z Z
LF0100 O LF0101 SF0102
LI000 A NLF0102 SY001
J1

:000
LF010 A .0007 SY02                /* the three fault bits as lamps */
J0
";

const STOPPER: &[u8] = b"; At most three boards between the stopper and the exit.
; Inputs:  I000 a board is behind the stopper   I001 a board is at the exit
;          I002 the first place is free         I003 clear the counts
; Outputs: Y000 stopper down   Y020 to Y027 free places
; Cells:   F020 boards that came in   F022 boards that left

:001
V000 I000 LF020 + 1 SF020 Z Z
V001 NI001 LF022 + 1 SF022 Z Z    ; counted once it has left
V003 I003 L0 SF020 SF022 Z Z
LF020 - LF022                     ; also right when a count has come round
< 3
  I002 U000 E D000 Z
E D000 Z
J1

:000
L3 - [ LF020 - LF022 ] SY02
J0
";

const VACUUM: &[u8] = b"; One nozzle: vacuum to pick, blow-off to place.
; Inputs:  I000 pick   I001 place   I002 vacuum switch, 1 = a part is held
;          I003 air pressure in order   I004 acknowledge
; Outputs: Y000 vacuum valve   Y001 blow-off valve   Y002 part held
;          Y020 part lost   Y021 not picked   Y022 call the setter
; Cells:   F020 picks that failed   F0100 set up   F0101 lost
;          F0102 was held   F0103 not picked
;          T00 settling 0.1 s   T01 blow-off 0.06 s

:001
NF0100 L0 ST00 ST01 UF0100 Z
V000 I000                         ; a pick begins
  U000 D001 DF0101 DF0102 DF0103 L5 ST00
Z Z
V001 I001                         ; a placing begins
  D000 U001 DF0102 L3 ST01
Z Z
LT01 = 0 D001 Z
NI003 D000 D001 Z                 ; no air: both valves off
Y000 LT00 = 0                     ; settled: the switch counts now
  I002 UF0102
  E G010 Z
Z Z
V004 I004 L0 SF020 DF0101 Z Z
LY000 A LI002 SY002
J1

:000
LF0101 SY020
LF0103 SY021
LF020 >= 10 U022 E D022 Z
J0

:010                              ; nothing is held
F0102 UF0101                      ; it was: the part is lost
E
  NF0103 LF020 + 1 SF020 UF0103 Z ; it never was: count the pick once
Z
R
";

const REFUSED: &[u8] = b"; The wait below has the letter O where a zero was meant. It is refused
; with its place, so the head cannot come down early.

:001
NF0110 L5O ST00 UF0110 Z
J1

:000
J0
";

// A tape feeder that advances once for each request.
const FEEDER: &[u8] =
    b":001 V004 I004 L3000 SF020 DF0101 Z Z V000 I000 I002 I003 NF0101 U000 L25 ST00 Z Z Z Z Z Y000
V001 I001 D000 LF020 > 0 - 1 SF020 Z Z Z Z Y000 NI003 D000 Z LT00 = 0 D000 UF0101 Z Z
LI002 A LI003 A NLF0101 A NLY000 SY001 J1
:000 LF020 < 50 U020 E D020 Z NLI002 SY021 LF0101 SY022 J0
";

// A guard switch with two channels.
const GUARD: &[u8] =
    b":001 NF0110 L10 ST00 UF0110 Z LI000 X LI001 = 0 L10 ST00 Z LT00 = 0 UF0101 Z NI000 DF0100 Z
NI001 DF0100 Z V002 NI002 LI000 A LI001 A NLF0101 = 1 UF0100 Z Z Z LI000 O LI001 = 0 DF0101 Z
LF0100 A NLF0101 SY000 J1
:000 LF0101 SY020 LI000 A LI001 A NLF0100 SY021 J0
";

// A board comes in, is worked on and goes out: a module for each state.
const HANDSHAKE: &[u8] =
    b":001 F0101 V006 I006 DF0101 L0 SF020 Z Z E LF020 = 0 G010 E = 1 G011 E = 2 G012 E = 3 G013 E G014
Z Z Z Z Z J1
:000 LF020 A .00FF SY02 LF0101 SY030 J0
:010 U000 I000 L1 SF020 L500 ST00 Z R
:011 U002 I003 D000 D002 L2 SF020 E LT00 = 0 G020 Z Z R
:012 I005 L3 SF020 Z R
:013 U001 I001 L4 SF020 L500 ST00 Z R
:014 U002 V004 NI004 D001 D002 L0 SF020 Z Z LT00 = 0 LF020 = 4 G020 Z Z R
:020 UF0101 D000 D001 D002 R
";

// A changer with eight pockets.
const NOZZLE: &[u8] = b":001 V003 I003 LI02 A .00FF SF040 Z Z LI02 A .00FF X LF040 SF042 - 1 A LF042
= 0 UF0100 E DF0100 Z LI000 A LF0100 SY001 LI004 SY000 J1
:000 LI02 A .00FF X LF040 SY02 J0
";

// A bin that counts; one module serves both levels.
const REJECT: &[u8] =
    b":001 I001 V000 I000 LF020 + 1 SF020 LI02 G050 SF022 Z Z E L0 SF020 Z LF020 >= 200 U001 E D001 Z
LI001 A NLY001 SY000 J1
:000 LI02 G050 SY02 LF0223 SY033 LF0222 SY032 LF0221 SY031 LF0220 SY030 J0
:050 A .000F R
";

// A signal tower with a horn.
const TOWER: &[u8] =
    b":001 NF0001 L0 ST00 UF0001 Z LT00 = 0 L25 ST00 LF0000 X 1 SF0000 Z V002 I002 UF0002 Z Z
LI02 = 0 DF0002 Z J1
:000 LI02 = 0 D020 D023 LI000 SY022 LI001 A LF0000 SY021 E D021 D022 F0002 U020 D023
E LF0000 SY020 U023 Z Z J0
";

// The nozzle of examples/vacuum.plc without a module for what is not held.
const NOZZLES: &[u8] =
    b":001 NF0100 L0 ST00 ST01 UF0100 Z V000 I000 U000 D001 DF0101 DF0102 DF0103 L5 ST00 Z Z V001 I001
D000 U001 DF0102 L3 ST01 Z Z LT01 = 0 D001 Z NI003 D000 D001 Z Y000 LT00 = 0 I002 UF0102 E
F0102 UF0101 E NF0103 LF020 + 1 SF020 UF0103 Z Z Z Z Z V004 I004 L0 SF020 DF0101 Z Z
LY000 A LI002 SY002 J1
:000 LF0101 SY020 LF0103 SY021 LF020 >= 10 U022 E D022 Z J0
";

#[test]
fn examples(rt: HostRuntime) -> Result<(), Fail> {
    accepts(&rt, 0, BELT, 28, 5)?;
    accepts(&rt, 1, CLAMP, 32, 4)?;
    accepts(&rt, 2, STOPPER, 23, 7)?;
    accepts(&rt, 3, VACUUM, 48, 9)?;
    refuses(&rt, 4, REFUSED, 4, 5, 8)
}

#[test]
fn stations(rt: HostRuntime) -> Result<(), Fail> {
    accepts(&rt, 0, FEEDER, 34, 9)?;
    accepts(&rt, 1, GUARD, 31, 7)?;
    accepts(&rt, 2, HANDSHAKE, 26, 6)?;
    accepts(&rt, 3, NOZZLE, 20, 5)?;
    accepts(&rt, 4, REJECT, 20, 14)?;
    accepts(&rt, 5, TOWER, 18, 11)?;
    accepts(&rt, 6, NOZZLES, 46, 9)
}
