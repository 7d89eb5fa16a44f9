//! The texts below the arguments in the helps of `ecat` and its commands: `-h` prints an example, `--help` all.

/// The text below the list of commands.
pub(crate) const EXIT_STATUSES: &str = "\
Exit status:
  0  done: the result, or the help that you asked for, is on standard output
  2  the command line isn't valid; standard error says why
  3  refused: standard error has a line `ecat: NUMBER NAME VALUES`
  4  a fault of input, output or a socket, in the same form
  5  an `expect` or `--strict` line is unmet, or `scan --against` finds a difference; in the same form

`ecat COMMAND -h` prints an example. `ecat COMMAND --help` lists the refusals, and what to do.";

/// The text below the arguments of `ecat pass` in its short help.
pub(crate) const PASS_EXAMPLE: &str = "\
Example: a broadcast read of the AL status past three slaves
  ecat pass --slaves 3 0e100701000030010200000000000000

`ecat pass --help` lists the exit statuses and what is refused.";

/// The text below them in its long help.
pub(crate) const PASS_REFUSALS: &str = "\
HEX is the payload of a UDP datagram to port 34980 (0x88A4): two bytes of header and the
datagrams. An Ethernet frame of type 0x88A4 has the same bytes behind its header.

Exit status:
  0  the frame is on standard output as it comes back: one line of hex digits
  2  the command line isn't valid: correct it as standard error says
  3  HEX is refused, and standard error says `ecat: NUMBER NAME`:
     40 BadHex      HEX isn't pairs of hex digits: leave out blanks and 0x
      7 TooLong     HEX has over 1472 bytes, or the header says over 1470 bytes of datagrams:
                    send fewer datagrams in a frame
      2 Short       HEX has fewer bytes than the header, or than bits 0 to 10 of the header say:
                    give all of them, or correct the header
      3 BadType     bits 12 to 15 of the header aren't 1: begin with the EtherCAT header, not with
                    that of Ethernet, IP or UDP
      4 BadLength   there is no room for a datagram, or for its data: see the header's length, and
                    the length at offset 6 of each datagram
      6 BadCommand  a datagram's command is over 14: see its first byte
      5 BadMore     bit 15 at offset 6 must be set in every datagram but the last
      1 Memory      memory ran out, and HEX may be good or bad: free some and try again
  4  the output is at fault, in the same form:
     41 Output      the result couldn't be written, or only a part of it: see where standard
                    output goes";

/// The text below the arguments of `ecat plan` in its short help.
pub(crate) const PLAN_EXAMPLE: &str = "\
Example: a wiring list of a table, and where the table is wrong
  ecat plan --explain examples/small_machine.toml

`ecat plan --help` says what the lines mean, and what is refused.";

/// The text below them in its long help.
pub(crate) const PLAN_LINES: &str = "\
TABLE is a link table; docs/TABLES.md describes it.

Lines, in this order for each slave, and then for each part:
  slave S part P out O in I  the slave's part, and how many output and input bits it has
  sm N BYTES                 a sync manager that is set: its 8 register bytes in hex
  fmmu N BYTES               an FMMU that is active: its 16 register bytes in hex
  part P address A bytes B counter C
                             the part's first logical byte, its bytes, and the working counter
                             of its LRW. W/R are those of an LWR and an LRD, if the part has a
                             slave without LRW. A table of version 2 adds ` unit U`

With `--header` it prints a C header instead, for programs that use the library. ECAT_VARIABLES is
how many variables there are. Each variable NAME has these, in file order:
  ECAT_NUMBER_NAME           its number
  ECAT_BITS_NAME             how many bits it has
  ECAT_OUTPUT_NAME           1 for an output, 0 for an input
  ECAT_TYPE_NAME             the C type that holds it
  ECAT_SIGNED_NAME           1 if it is signed, else 0
  ECAT_OFFSET_NAME           its first bit in the image of all outputs, or of all inputs
With `--prefix` PREFIX, made of letters, digits and `_`, names begin with it in place of `ECAT_`.

Exit status:
  0  the plan is on standard output
  2  the command line isn't valid: correct it as standard error says
  3  the table is refused, and standard error says `ecat: NUMBER NAME VALUES`
  4  input or output is at fault, in the same form

Refusals with status 3; PLACE counts from 0 in file order:
  11 Toml                    the text is no TOML: correct its syntax
  12 BadKey SECTION PLACE    a key is unknown or missing: leave it out or add it. `unit` is known
                             if the text begins with `version = 2`, and keys of real devices
                             if it has `hardware = true`. SECTION is 0 for the document,
                             1 type, 2 slave, 3 variable, 4 link
  13 BadValue SECTION PLACE  a value has the wrong kind, range or number of items: give one that
                             its key takes. A name has letters, digits and `_` alone. A slave
                             without a mailbox assigns all PDOs of its type, so leave out its
                             `out` and `in`. `out = []` is refused too
  14 TwiceNamed SECTION PLACE
                             a name, or the index of a PDO, stands twice: change one of them
  15 UnknownName SECTION PLACE
                             a name, or the index of a PDO, is unknown: correct it, or add what
                             it names
  16 WrongDirection PLACE    link PLACE: its slave has that entry in the other direction. Link a
                             variable of that direction
  17 NoEntry PLACE           link PLACE: its slave assigns no such entry. Assign its PDO, or link
                             another
  18 OutsideEntry PLACE      link PLACE: it has bits past the entry or the variable. Link fewer
  19 LinkedTwice PLACE       link PLACE: an earlier link gives one of its bits. Leave one out
  20 EntryTwice PLACE        slave PLACE: it assigns an entry twice in one direction. Assign one
                             PDO less. Without `out` or `in` it assigns all PDOs of its type
  21 TooManyBits PLACE       slave PLACE: it has over 2048 bits in a direction. Assign fewer PDOs
  22 TooManySlaves COUNT     over 64 slaves: make two tables
  23 TooManyParts COUNT      over 32 parts: put slaves into fewer sync units
  24 AreasOverlap PLACE      slave PLACE: areas of two of its sync managers overlap. A buffer has
                             three times its length. See the starts in its type
  25 OutsideRam PLACE        slave PLACE: an area is not within 0x1000 to 0x2fff. See the starts
                             in its type
  44 SplitVariable PLACE     variable PLACE: this input has links from two sync units. Make two
                             variables of it, or put the slaves into one unit
   1 Memory                  memory ran out, and the table may be good or bad: free some and try
                             again

Refusals with status 4:
  41 Output                  the plan couldn't be written, or only a part of it: see where
                             standard output goes
  42 Input                   standard input couldn't be read, isn't UTF-8, or has over 1048576
                             bytes: see where it comes from";

/// The text below the arguments of `ecat decode` in its short help.
pub(crate) const DECODE_EXAMPLE: &str = "\
Example: a broadcast read of the AL status, in the standard's names
  echo 0e100701030030010200000001000300 | ecat decode --explain

`ecat decode --help` says what the lines mean, and what is refused.";

/// The text below them in its long help.
pub(crate) const DECODE_LINES: &str = "\
FILE has payloads of UDP datagrams to port 34980 (0x88A4) in hex, one a line. Empty lines are
skipped. An Ethernet frame of type 0x88A4 has the same bytes behind its header.

Lines for each payload, in this order:
  frame COUNT     a frame of COUNT datagrams. Behind that:
                    ` reserved`     bit 11 of its header is set
                    ` rest HEX`     the bytes behind the datagrams, if there are any
  N COMMAND index II at ADP:ADO counter C data HEX
                  each datagram: its number from 0, its command, its index in hex, and ADP and ADO
                  in hex (` logical ADDRESS` for LRD, LWR and LRW). Then its counter in decimal, and
                  its data in hex, `-` for none. Before ` counter`, unless they are zero:
                    ` irq XXXX`     the event request word in hex
                    ` reserved R`   the three reserved bits as a number
                    ` circulating`  the circulating bit
  refused NUMBER NAME datagram WHOLE byte AT
                  stands instead of `frame`, behind the lines of the WHOLE datagrams before the
                  fault. The payload is no frame: `ecat pass --help` lists the reasons. The fault
                  begins at byte AT

With `--explain`, indented lines below a datagram say what it carries, by the names of the standard.
They name registers, AL states and status codes, sync managers, FMMUs, and messages of a mailbox.
With `--table` they say which variables of that table it carries, with their values, and the working
counter that is expected. `ecat encode` skips indented lines.

Exit status:
  0  every payload was printed as text, refused ones too
  2  the command line isn't valid: correct it as standard error says
  3  refused, and standard error says `ecat: NUMBER NAME VALUES`:
     40 BadHex      a line isn't pairs of hex digits: leave out blanks and 0x; the lines before
                    it are printed
     11 to 25, 44   the table of `--table` is refused; `ecat plan --help` says what to do
      1 Memory      memory ran out, and the input may be good or bad: free some and try again
  4  input or output is at fault, in the same form:
     41 Output      a text couldn't be written, or only a part of it: see where standard output
                    goes
     42 Input       standard input, or a file, couldn't be read, isn't UTF-8, or has over 1048576
                    bytes: see where it comes from";

/// The text below the arguments of `ecat encode` in its short help.
pub(crate) const ENCODE_EXAMPLE: &str = "\
Example: what `ecat decode` prints, as hex again
  echo 0e100701030030010200000001000300 | ecat decode | ecat encode

`ecat encode --help` lists the exit statuses and what is refused.";

/// The text below them in its long help.
pub(crate) const ENCODE_LINES: &str = "\
FILE has what `ecat decode` prints of frames; `ecat decode --help` describes the lines. Empty lines
and indented ones are skipped. Each frame is printed as one line of hex digits.

Exit status:
  0  every frame is on standard output
  2  the command line isn't valid: correct it as standard error says
  3  refused, and standard error says `ecat: NUMBER NAME VALUES`:
     39 BadScript LINE   a line has no valid form, or says `refused`: correct it. LINE counts from
                         1, and is the line behind the last if datagrams are missing
      1 Memory           memory ran out, and the input may be good or bad: free some and try again
  4  input or output is at fault, in the same form:
     41 Output           a frame couldn't be written, or only a part of it: see where standard
                         output goes
     42 Input            standard input couldn't be read, isn't UTF-8, or has over 1048576 bytes:
                         see where it comes from";

/// The text below the arguments of `ecat sim` in its short help.
pub(crate) const SIM_EXAMPLE: &str = "\
Example: a table, and a script that begins with a line `%%`
  cat examples/drive.toml examples/drive.script | ecat sim

`ecat sim --help` lists the lines of a script, what they print, and what is refused.";

/// The text below them in its long help.
pub(crate) const SIM_LINES: &str = "\
TABLE is a link table, and SCRIPT a script with one event a line. Standard input has both, with a
line `%%` between, unless a file is named; then it has no table and no line `%%`. Numbers are
decimal, words have one blank between them, empty lines are skipped, and `#` begins a comment.
VALUE is decimal, `0x` and hex digits, or `-` and decimal. A negative VALUE is its two's complement
in the variable's bits. A value that these bits can't hold can't be set. S is a slave's number from
0, or its name in the table; digits alone are a number.

Lines of a script:
  start           sends the next frame of the start-up
  set NAME VALUE  sets an output variable; NAME VALUE may stand several times: all or none are set
  begin           begins a cycle: sends the frame of each part
  pass K          the frame in slot K passes its next slave
  lose K          the frame in slot K is lost
  return K        the frame in slot K, past all slaves, comes back to the master
  close           closes the cycle, or gives up a start-up that waits for its frame
  serve S         the firmware of slave S makes a step
  put S I BYTE    the application of slave S writes byte I of its inputs, as below
  get S I         it reads byte I of its outputs, as below
  fault S         the application of slave S has a fault
  reset S         slave S is switched off and on
  in NAME VALUE   sets an input variable as the plant does. Each slave with bits of it writes all
                  its input bytes, the other bits as it published them last
  out NAME        prints an output variable as the slaves publish it, or several
  ready           runs the start-up to its end
  stop            ends a ready start-up, if no cycle is open and no frame is on its way. Then
                  `ready` starts up again, also slaves that were reset
  cycle           runs a cycle: begin, each frame past all slaves and back, close
  show            prints the input variables
  show NAME       prints this variable of the image, or several
  echo TEXT       prints TEXT
  states          prints the slaves' AL states, as a master reads them
  repeat N LINE   runs LINE N times, 1 to 1000000; LINE isn't a `repeat`
  repeat N {      runs the lines up to its `}`, a line of its own, N times. They may be indented;
                  blocks may stand in blocks, up to 8 deep

Lines that print something only if what they expect doesn't hold:
  expect NAME VALUE           an input variable of the image is VALUE; for an output variable, the
                              slaves publish VALUE in its linked bits
  expect NAME == VALUE        its value is VALUE; also with !=, <, <=, >, >=. Values of a `signed`
                              variable have a sign; one that it can't hold is never met
  expect NAME & MASK == VALUE its bits in MASK are VALUE; also with !=
  expect NAME LOW..HIGH       its value lies between LOW and HIGH, or is one of them
  expect taken, expect untaken
                              the last report has all sync units as taken, or as untaken; with a
                              number behind it, that unit
  expect state S STATE CODE   slave S is in INIT, PREOP, SAFEOP or OP, with this AL status code in
                              four hex digits, which may be left out
  expect ready, expect failed
                              how the start-up ended; a number may stand behind `failed`
  expect no LINE              LINE, which is run, prints `no`; what it prints isn't printed
  within N expect ..          so it is now or behind one of N cycles, 1 to 1000000; none is run once
                              it is so

Bytes count from 0 in the slave's own data, as `ecat plan --explain` shows. `put` begins with byte
0, which opens a draft of zeros. The last byte publishes all of it at once; until then the slave
gives its older inputs. `get` begins with byte 0 too, which opens a view of the outputs that the
last byte closes. Any other byte can't be written or read before byte 0.

A frame never passes an older one. While one is still on its way, as after `begin` and `close`, a
`cycle` ends with `no` and leaves its own cycle open. So does each `begin` or `cycle` behind it.
The way out: `lose K` for each slot with a frame, then `close`.

What a line prints, before the next one runs:
  no LINE         an event can't be made, and the script's line of this number ended there. With
                  `--explain` the line behind it says why
  ready           the start-up has ended well
  failed NUMBER   it has failed, by 9, 26 to 32, 36 or 38: `ecat loop --help` says what each
                  stands for
  report taken missing M counters C C .. al WORD
                  the cycle was closed:
                    taken           inputs were taken; `untaken` if not. With a table of version 2
                                    each sync unit has its number and its own word
                    missing M       M frames are missing
                    counters C C .. the working counters of each part as in the plan; `-` if its
                                    frame is missing
                    al WORD         the OR of the slaves' AL status words in hex
  byte BYTE       what `get` read, in hex
  NAME VALUE      each variable, after `show` and `out`
  state S NAME STATE CODE
                  each slave, after `states`: INIT, PREOP, SAFEOP or OP, with `+ERROR` behind
                  after an error, or `-` without a station address; and the AL status code in hex
  unmet LINE      what this line expects doesn't hold; the script goes on. With `--explain` the
                  line behind it says what was and what was expected
Other lines print nothing. A repeated line prints each time.

With `--live` each line is run as it comes. What it prints is written out before the next one is
read. So another program can be the plant, or the control program, through a pipe. A line without a
valid form then prints `bad LINE` instead of 39, and changes nothing. With `--explain` the line
behind it says why. A block is run once its `}` has come, without bad lines. It has at most 1000
lines; a further one is bad, but for `}`. So is a block that is open at the end of the input.

Exit status:
  0  the script was run to its end, even if lines printed `no` or `failed`
  2  the command line isn't valid: correct it as standard error says
  3  refused, and standard error says `ecat: NUMBER NAME VALUES`:
     11 to 25, 44        the table is refused; `ecat plan --help` says what to do. It is 11 too
                         if the line `%%` is missing or isn't just that: then the script is read
                         as a part of the table
     39 BadScript LINE   a line is none of these, or its block has no end: correct it; LINE counts
                         from 1 behind `%%`
      1 Memory           memory ran out, and the input may be good or bad: free some and try again
  4  input or output is at fault, in the same form:
     41 Output           what a line prints, or the capture, couldn't be written: see where
                         standard output goes, and the file
     42 Input            standard input couldn't be read, isn't UTF-8, or has over 1048576 bytes:
                         see where it comes from
  5  the script was run to its end, and standard error says `ecat: NUMBER NAME VALUE`:
     45 Unmet COUNT      `unmet` was printed COUNT times: see the lines that it names";

/// The text below the arguments of `ecat loop` in its short help.
pub(crate) const LOOP_EXAMPLE: &str = "\
Example: ten cycles
  ecat loop --cycles 10 examples/three_slaves.toml

`ecat loop --help` says what is printed, and what is refused.";

/// The text below them in its long help.
pub(crate) const LOOP_LINES: &str = "\
TABLE is a link table; docs/TABLES.md describes it.

Before cycle K, counted from 1, each output variable is set to K, cut to its bits. The slaves'
applications show their outputs as their inputs.

Lines, in this order:
  ready              the start-up has ended well
  report ...         for each cycle: whether inputs were taken, how many frames are missing, the
                     working counters of each part, and the slaves' AL states
  NAME VALUE         for each input variable: its value at the end

Exit status:
  0  all cycles were run
  2  the command line isn't valid: correct it as standard error says
  3  refused, and standard error says `ecat: NUMBER NAME VALUES`
  4  input, output or a socket is at fault, in the same form

Refusals with status 3. SLAVE and STEP count from 0, and values are decimal. `failed` of `ecat sim`
and `ecat master` has these numbers too:
  11 to 25, 44             the table is refused; `ecat plan --help` says what to do
   9 BadMailbox SLAVE      what the slave's mailbox held is no reply to the request: see the
                           mailbox of its type
  26 Count SEEN            SEEN slaves answered the first frame, and not as many as the table
                           has: see which slaves it passed
  27 Identity SLAVE VENDOR PRODUCT REVISION
                           the slave is another device than its type says: see the order of the
                           slaves, and the type
  28 Counter STEP          a frame came back with another working counter than it must have: see
                           whether a slave was switched off
  29 AlError SLAVE CODE    the slave refused a state, and shows this AL status code: see what
                           ETG.1000.6 says of it
  30 Abort SLAVE CODE      the slave aborted a transfer with this code: see what ETG.1000.6 says
                           of it
  31 TooSlow STEP          a wait wasn't over after 1000 polls: see whether the slave works
  32 Lost                  a socket was faulty in the start-up: try again
  36 NumbersSpent          no frame number is left: try again
  38 Mapping SLAVE INDEX SUBINDEX SEEN
                           an object of the slave's PDO mapping holds SEEN, and not what its
                           type says: correct the type
   1 Memory                memory ran out, and the table may be good or bad: free some and try
                           again

Refusals with status 4:
  37 Wire                  a socket was faulty in a cycle: try again
  41 Output                a line, or the capture, couldn't be written: see where standard output
                           goes, and the file
  42 Input                 standard input couldn't be read, isn't UTF-8, or has over 1048576
                           bytes: see where it comes from
  43 Socket                there is no free socket on 127.0.0.1: see what else has sockets";

/// The text below the arguments of `ecat segment` in its short help.
pub(crate) const SEGMENT_EXAMPLE: &str = "\
Example: slaves for `ecat master`, or for another master
  ecat segment examples/three_slaves.toml

`ecat segment --help` lists the lines of `--live`, and says what is printed and refused.";

/// The text below them in its long help.
pub(crate) const SEGMENT_LINES: &str = "\
TABLE is a link table; docs/TABLES.md describes it.

The slaves' applications show their outputs as their inputs. Once the segment listens on a port,
standard error has a line that says so. With `--descriptor` it answers Ethernet frames of type
0x88A4 on the raw socket of a network card, which is already open; `tools/with_card` opens one.
At the end it prints `served N refused M`: it answered N frames, and M other payloads came. It ends
after N payloads, if `--frames N` says so, and if no payload came for SECONDS.

With `--full`, slaves are as usual masters expect them. They also have SII categories, DL status,
and CoE objects 0x1000 to 0x100A and 0x1C00.

With `--live`, standard input has lines that are run one by one as they come, between two frames.
They follow a line `%%`, unless the table is a file. So another program can be the plant, through a
pipe. The slaves have no applications then. The end of the input changes nothing. Words, numbers, S,
NAME, VALUE, BYTE and comments are those of `ecat sim --help`.

Lines of `--live`:
  in NAME VALUE   sets an input variable as the plant does
  out NAME        prints an output variable as the slaves publish it, or several
  put S I BYTE    slave S writes byte I of its inputs
  get S I         it reads byte I of its outputs
  fault S         the application of slave S has a fault
  reset S         slave S is switched off and on
  lose N          the next N frames are lost: no slave sees them, and none is answered
  lose N part P   the next N cyclic frames of part P are lost
  served          prints how many frames were answered so far, and how many other payloads came
  echo TEXT       prints TEXT
  repeat N LINE   runs LINE N times, 1 to 1000000; LINE isn't a `repeat`
  repeat N {      runs the lines up to its `}`, a line of its own, N times, once that has come. They
                  may be indented; blocks may stand in blocks, up to 8 deep. A block has at most
                  1000 lines, and runs without those that are bad
  expect NAME VALUE
                  the slaves publish VALUE in the linked bits of this output variable; also with
                  ==, !=, <, <=, >, >=, & MASK and LOW..HIGH, as in `ecat sim`
  expect state S STATE CODE
                  slave S is in INIT, PREOP, SAFEOP or OP, with this AL status code in four hex
                  digits, which may be left out
  expect no LINE  LINE, which is run, prints `no`

What a line prints, before the next one runs:
  no LINE         the line of this number can't be done. With `--explain` the next line says why
  bad LINE        it has none of these forms, and did nothing; or it begins a block that has no `}`
                  at the end of the input. With `--explain` the next line says why
  byte BYTE       what `get` read, in hex
  NAME VALUE      the output variable, after `out`
  served N refused M
                  after `served`, as at the end
  unmet LINE      what this line expects doesn't hold; the segment goes on

Exit status:
  0  all payloads came, or none came for SECONDS, and the line is on standard output
  2  the command line isn't valid: correct it as standard error says
  3  refused, and standard error says `ecat: NUMBER NAME VALUES`:
     11 to 25, 44       the table is refused; `ecat plan --help` says what to do
      1 Memory          memory ran out, and the table may be good or bad: free some and try again
  4  input, output or a socket is at fault, in the same form:
     41 Output          the line, or the capture, couldn't be written: see where standard output
                        goes, and the file
     42 Input           standard input couldn't be read, isn't UTF-8, or has over 1048576 bytes:
                        see where it comes from
     43 Socket          the port is in use: take another
                        ADDRESS is none of this computer's: correct it
                        fewer than N payloads came, and none for SECONDS: start the master in time,
                        or give a longer `--idle`
  5  the segment served to its end, and standard error says `ecat: NUMBER NAME VALUE`:
     45 Unmet COUNT     `unmet` was printed COUNT times: see the lines that it names";

/// The text below the arguments of `ecat master` in its short help.
pub(crate) const MASTER_EXAMPLE: &str = "\
Example: a start-up and a cycle against `ecat segment`
  (echo ready; echo cycle) | ecat master examples/three_slaves.toml

`ecat master --help` lists the lines, what they print, and what is refused.";

/// The text below them in its long help.
pub(crate) const MASTER_LINES: &str = "\
TABLE is a link table, and LINES are run one by one as they come. Standard input has both, with a
line `%%` between, unless a file is named; then it has no table and no line `%%`. What a line prints
is written out before the next one is read, so a control program can drive the master through a
pipe. The run ends with the input. Words, numbers, NAME, VALUE and comments are those of
`ecat sim --help`, and empty lines are skipped.

Frames go to ADDRESS:PORT, and nothing comes in from elsewhere. With `--descriptor` they are
Ethernet frames of type 0x88A4 on the raw socket of a network card, which is already open;
`tools/with_card` opens one.

Lines:
  ready           sets all outputs to 0, and runs a start-up over the wire to its end. Between two
                  polls of a wait it rests: 1000 take about 9 seconds
  set NAME VALUE  sets an output variable; the next cycle sends it. NAME VALUE may stand several
                  times: all or none are set
  cycle           runs a cycle over the wire. It closes when all answers are there, or MS are over
  show            prints the input variables
  show NAME       prints this variable of the image, or several
  echo TEXT       prints TEXT
  report          prints the last report again
  states          reads the slaves' AL states, and changes nothing
  stop            sets all outputs to 0, runs a cycle, and asks all slaves for INIT. Then only
                  `ready` goes on
  expect NAME VALUE
                  an input variable of the image is VALUE. Also with ==, !=, <, <=, >, >= or
                  `& MASK ==` before it, or LOW..HIGH in its place, as `ecat sim --help` says
  expect taken, expect untaken
                  the last report has all sync units as taken, or as untaken; with a number behind
                  it, that unit
  expect ready, expect failed
                  how the last start-up ended; a number may stand behind `failed`
  expect state S STATE
                  slave S says that it is in INIT, PREOP, SAFEOP or OP; an AL status code of four
                  hex digits may stand behind it
  expect no LINE  LINE, which is run, prints `no`; what it prints isn't printed
  within N expect ..
                  so it is now or behind one of N cycles, 1 to 1000000
  repeat N LINE   runs LINE N times, 1 to 1000000; LINE isn't a `repeat`
  repeat N {      runs the lines up to its `}`, a line of its own, N times, once that has come. They
                  may be indented; blocks may stand in blocks, up to 8 deep. A block has at most
                  1000 lines, and runs without those that are bad

What a line prints; lines count from 1 behind `%%`:
  ready           the start-up has ended well
  failed NUMBER   it has failed, by 9, 26 to 32, 36 or 38: `ecat loop --help` says what each
                  stands for. With `--explain` the line behind it says what was seen
  report ...      after `cycle` and `report`, as `ecat sim --help` says
  fault 37 Wire   a socket was faulty in a `cycle`, `states` or `stop`. Inputs and the last report
                  stay as they were, and a new `cycle` or `ready` may go well
  state S NAME STATE CODE
                  each slave, after `states`: INIT, PREOP, BOOT, SAFEOP or OP, with `+ERROR` behind
                  after an error, or `-` if it doesn't answer; and the AL status code in hex
  NAME VALUE      each variable, after `show`
  unmet LINE      what this line expects doesn't hold
  no LINE         what this line says can't be done, and nothing was done. With `--explain` the line
                  behind it says why. It stands for:
                    `cycle` or `stop` before a start-up, after one that failed, or with no frame
                    number left
                    `set` of an input variable, or of a value that the variable can't hold
                    `report` before the first one
  bad LINE        the line is none of these, and nothing was done. `expect` of an output variable is
                  bad too: no frame carries what slaves show of it. So is the first line of a block
                  without a `}`, at the end of the input. With `--explain` the next line says why
Other lines print nothing. A repeated line prints each time.

Exit status:
  0  all lines were run, even if they printed `no`, `bad`, `failed` or `fault`
  2  the command line isn't valid: correct it as standard error says
  3  refused, and standard error says `ecat: NUMBER NAME VALUES`:
     11 to 25, 44       the table is refused; `ecat plan --help` says what to do. It is 11 too
                        if the line `%%` is missing or isn't just that: then the lines are read
                        as a part of the table
      1 Memory          memory ran out, and the input may be good or bad: free some and try again
  4  input, output or a socket is at fault, in the same form:
     41 Output          what a line prints, or the capture, couldn't be written: see where standard
                        output goes, and the file
     42 Input           standard input couldn't be read, or the table isn't UTF-8, or has over
                        1048576 bytes: see where it comes from
     43 Socket          there is no socket for ADDRESS:PORT: correct the address
  5  all lines were run, and standard error says `ecat: NUMBER NAME VALUE`:
     45 Unmet COUNT     `unmet` was printed COUNT times: see the lines that it names";

/// The text below the arguments of `ecat scan` in its short help.
pub(crate) const SCAN_EXAMPLE: &str = "\
Example: a link table of the slaves on a network card
  tools/with_card eth0 crates/ecat/out/ecat scan --descriptor 3 >line.toml

`ecat scan --help` says what is printed, and what is refused.";

/// The text below them in its long help.
pub(crate) const SCAN_LINES: &str = "\
First it asks all slaves for INIT: a machine that runs stops. Then it reads the SII of each slave, and
by CoE the PDOs that the slave exchanges and their mapping. Where the two differ, CoE decides. It
prints a link table with `hardware = true`: a type for each different device, the slaves in order, and
a variable and a link for each entry. Names are made of those in the SII. `ecat plan` takes the table,
and `ecat master` brings the slaves up by it.

It downloads nothing, moves no process data, and asks no slave for more than PREOP. At the end all are
asked for INIT again. Frames go where those of `ecat master` go.

With `--against` it prints a line for each thing that differs from TABLE:
  slave S NAME: WHAT
                  device (vendor and product), revision, serial, a PDO that is missing, has other
                  entries or isn't in TABLE, or what no table can say of the slave; a revision that
                  TABLE leaves out and a serial number of 0 differ from none
  slave S NAME: missing
  slave S: not in the table: VENDOR PRODUCT
PDOs are those that the slave exchanges once it was started up by TABLE; of a slave with more than 16
in a direction, those that it exchanges now. Mailboxes, where process data begin, sync managers,
`lrw`, `firmware` and `fixed` aren't compared, but what no table can say of them is printed, and
counts. A slave whose mapping `init` writes differs before its start-up.

Exit status:
  0  the table is printed, or nothing differs
  2  the command line isn't valid: correct it as standard error says
  3  refused, and standard error says `ecat: NUMBER NAME VALUES`:
     46 Unsaid SLAVE    a table can't say all of some slaves, of which this is the first. The table is
                        printed, and comments above each slave say what it leaves out
      9 BadMailbox SLAVE
                        its mailbox held a reply that doesn't fit the request
     26 Count SEEN      more than 64 slaves are there
     27 Identity SLAVE ...
                        its SII can't be read, or has no end mark
     28 Counter FRAME   this frame came back with another working counter: a slave doesn't answer
     29 AlError SLAVE CODE
                        it refused PREOP with this AL status code
     30 Abort SLAVE CODE
                        it aborted an upload with this code
     31 TooSlow FRAME   a wait wasn't over after 1000 polls, or a slave took too many frames
     32 Lost            a frame or its answer was lost: start the segment, and look at the wire
     21 to 25           the slaves have no plan together, as `ecat plan --help` says
     11 to 25, 44       with `--against`: TABLE is refused, as there
      1 Memory          memory ran out: free some and try again
  4  input, output or a socket is at fault, in the same form:
     41 Output          the table, or the capture, couldn't be written: see where standard output
                        goes, and the file
     42 Input           TABLE couldn't be read: see whether the file is there
     43 Socket          there is no socket for ADDRESS:PORT: correct the address
  5  something differs from TABLE, and standard error says `ecat: NUMBER NAME VALUE`:
     45 Unmet COUNT     so many lines were printed";
