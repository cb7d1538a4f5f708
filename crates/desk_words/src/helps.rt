//! What the helps say behind the words, each with an example at its end.

/// The version that is told.
pub const VERSION: &str = "0.1.0";

/// What is told where a word is no text.
pub const NO_TEXT: &str = "\
error: invalid UTF-8 was detected in one or more arguments

Usage: desk [COMMAND]

For more information, try '--help'.
";

/// Of the program
pub const PROGRAM: &str = "\
Exit status:
  0  done
  1  refused: the code is no ISIN, the text is no message, a request of the script that
     was checked is refused, the account is not the participant's, or the desk gives no
     such answer
  2  usage: the words are wrong
  3  fault: memory, the input, the output or the file of the desk failed, or the file is
     none of a desk's

Example:
  ./desk play --db day.db < examples/day/day.script";

/// Of `desk isin`
pub const ISIN: &str = "\
It prints `valid`, or the first thing that is wrong: `length`, `prefix`, `body`, or `check D`, D being the
check digit that the number should have.

Example:
  ./desk isin US0378331005";

/// Of `desk read`
pub const READ: &str = "\
Block 4 is the text of a message: the lines from `{4:` to `-}`, of at most 65536 bytes. What stands before
it in a file, the blocks 1 to 3, is no part of it: a text that begins with them is `refused 1`.
It prints what the fields say, a line each, or why it is refused; `desk explain` tells what the numbers mean.

Example:
  ./desk read 543 < examples/deliver_against_payment.fin";

/// Of `desk play`
pub const PLAY: &str = "\
A script is lines, of at most 1024 bytes each and 16777216 together. An empty line, and one that begins
with #, asks nothing. Each other line asks:
  in BIC MT             a participant's message, block 4; MT is 540 to 543, and a body follows
  op                    an operator's command, a JSON object; a body follows
  status BIC REF        how the message stands that the participant sent with this reference
  sent BIC K            the message that was sent to the participant as its K-th, counted from 1
  holdings BIC ACCOUNT  what the participant's account holds
  sums                  the totals of all accounts and participants
A body is the lines up to one that is a full stop, of at most 65536 bytes; lines that begin with # and
empty ones belong to it. So a message with a line that is a full stop cannot be sent by a script: what
stands behind that line is taken for lines of the script, which may be commands. Who makes a script of
messages that others wrote must first refuse such a line, or send them over HTTP (desk serve).
An answer is its status and, of a message, its type; the text; and a line that is a full stop. The status
is 200, or 400 for what cannot be read, 422 for what is refused, 503 where memory is wanting and 500 where
the file fails; `desk explain` tells what the numbers behind `refused` and `fault` mean. A script that cannot be read, or is too
long, is `fault io`, and nothing of it is asked. docs/RULES.md tells all of it.
With --db the desk is the one of that file: it goes on where it ended, and the file holds each command that
is answered `accepted`, whatever happens then. Where there is no file it is made. A file that is none of a
desk's is `fault 50`, and its bytes stay; one that cannot be opened, or is in use, is `fault 61`; standard
error tells more. Without --db the desk is in memory, and is gone at the end.
With --dry-run the script is played over what the file holds, in memory: nothing is changed in the file, and
the answers are those that its desk would give. Where there is no file none is made, and it is `fault 61`.

Example:
  ./desk play --db day.db < examples/day/day.script";

/// Of `desk check`
pub const CHECK: &str = "\
Of each answer whose status is not 200 it prints a line: the line of the script where the request begins,
the first 40 bytes of that line, the number that is told with what stands behind it, and why the request
cannot be read, or what the number means; behind that, where they are known, the line of the script at which
the fault stands and the reference that the request gives itself. What is not printable is shown as `?`. At
its end it prints how many tell each number, and how many requests there were. Its status is 1 where any was
refused, and 0 where none was.
With --json it is one JSON object on a line: `counts`, an array of rows with `answer` and `count`; `refused`,
an array with a row for each line told otherwise: `answer`, `line`, `reference` (null where there is none),
`said`, `why` and `within` (the line where the fault stands, null where it is not told); and `requests`.
With --db the script is played over what that file holds, in memory: nothing is changed in the file, and what
is told is what its desk would answer. Where there is no file none is made, and it is `fault 61`.

Example:
  ./desk check < examples/day/day.script | tail -n 5";

/// Of `desk explain`
pub const EXPLAIN: &str = "\
The words are those of an answer, as `refused 7 19A`, `5 REAG`, `fault 61` or `fault io`; `refused` and `fault`
may be left out, and either may stand for the other. Behind 5, 6 and 7 stands the field that is named, or each;
behind 30 the command or the member that is named, or each. `refused 404` and its like, with three digits, are
HTTP's own: the status of the answer once more. Other words are refused.

Example:
  ./desk explain refused 7 19A";

/// Of `desk serve`
pub const SERVE: &str = "\
It asks nobody who he is: it takes commands from everybody who reaches the port. Where the port is in use,
or may not be had, it is `fault io`. An answer with the text `refused NNN`, NNN being its status, is HTTP's
own; of other numbers `desk explain` tells what they mean. docs/RULES.md has the requests.
With --db the desk is the one of that file, as in `desk play --db`. It is opened before `listening` is
printed, and closed once so many connections are served.

Example:
  ./desk serve --db day.db --port 8000 --count 100";

/// Of `desk holdings`
pub const HOLDINGS: &str = "\
It prints an MT535, row by row, or `refused 10` where the participant is none, and `refused 15` where the
account is not its own; `desk explain` tells what the numbers mean. What the desk holds stays. Where there is
no file none is made, and it is `fault 61`.

Example:
  ./desk holdings --db day.db ALPHDEFF ALPHA-CLIENT";

/// Of `desk sums`
pub const SUMS: &str = "\
It prints a JSON object, row by row: of each currency what the participants hold together and what was paid
in less what was paid out, and of each security what the accounts hold together and what is outstanding.
What the desk holds stays. Where there is no file none is made, and it is `fault 61`.

Example:
  ./desk sums --db day.db";

/// What is told where a word names no part of a report.
pub const NO_PART: &str = "a part of a report is pending, unmatched, accounts, cash or sums";

/// Of `desk report`
pub const REPORT: &str = "\
The parts, in the order in which they are told, each once however often it is named:
  pending    the matched pairs that are not settled, in two lines more the side that delivers and the one
             that receives. FUTU: no run has tried the pair; LACK: the last run that tried it found too little
             of the security; MONY: too little cash. `lacks` tells how much of that is lacking now
  unmatched  the instructions that no other matches. `nearest` tells the first unmatched one of the other
             side, of the same security, where each names the other's sender, and `differs in` why the two
             do not match: kind (units, or face amount), quantity, day, payment (one is free of it), currency,
             amount
  accounts   what each account holds of each security
  cash       what each participant has of each currency
  sums       of each currency what the participants hold together and what was paid in less what was paid
             out, and of each security what the accounts hold together and what is outstanding
Each part has its name for a heading, which stands alone where there is nothing to tell. With --json it is one
JSON object on a line, with a member for each part: an array of rows, of the sums an object; an amount is in
minor units of its currency.
What the desk holds stays. With --db it is the desk of that file; where there is no file none is made, and it
is `fault 61`. Without --db a script from standard input is played on a desk in memory; its answers are not
printed, and what stands at its end is told.

Example:
  ./desk report pending --db day.db";

/// Of `desk journal`
pub const JOURNAL: &str = "\
The accepted entries in order of their numbers, a line each: the number, who sent it (`operator`, or the BIC),
its reference, what it was, and how it fares by now:
  booked          what the operator asked for is done
  unmatched       no other instruction matches it
  matched with N  the entry N matches it, and the two are not settled. FUTU: no run has tried the pair; LACK: the
                  last run that tried it found too little of the security; MONY: too little cash
  settled         on which day, in which run's entry, and with which entry
  cancelled       it will not be settled
Of a cancellation it tells whether its instruction is cancelled, waits for the other side, or was settled,
and of a run how many pairs it settled and how many due ones it left. Behind an entry stands a line for each
message that was sent because of it: its type, its addressee, and its number there, as `sent BIC K` of a
script asks for it. With --json it is one JSON object on a line, with an array `journal` of rows; an amount is
in minor units of its currency.
What the desk holds stays. With --db it is the desk of that file; where there is no file none is made, and it
is `fault 61`. Without --db a script from standard input is played on a desk in memory; its answers are not
printed, and the entries at its end are told.

Example:
  ./desk journal --from 5 --db day.db";

/// Of `desk drop`
pub const DROP: &str = "\
Each file of the folder DIR of --in asks what its name says, in order of the bytes of the names:
  BIC.MT.ANY.fin   a participant's message, block 4, of this sender; MT is 540 to 543, ANY is yours
  ANY.json         an operator's command, a JSON object
A file of any other name is `refused 40`. Folders in it are passed over. All files are read before anything
is asked; where that fails, or a file is neither a file nor a folder, it is `fault io` and nothing is asked.
The answer to a file NAME is written to NAME.out in the folder DIR of --out, over an older one, in the form
of `desk play`. It appears whole or not at all. Where it cannot be written it is `fault io`; the commands
that were accepted stand. The same folder may be taken again: what was accepted is answered as before, and
acts once. Where both folders are one, the answers of the last time are among the files, and are
`refused 40`; two folders are better. How many files were taken, accepted and refused is told on standard
error. With --db as in `desk play --db`.

Example:
  ./desk drop --db day.db --in examples/folder --out answers";

/// Of `desk migrate`
pub const MIGRATE: &str = "\
OLD is a desk's file of version 1 or 2, which other subcommands answer with `fault 51`. Its tables are compared
with its entries, and it stays as it is. NEW gets the same entries, all at once, each with its reply, so that
positions, cash and messages are the same; a run of one pass stays one. It prints `migrated N`, N being how many
entries there are.
NEW must not be there, or hold no bytes: else it is `fault 50`, and stays as it is. It is `fault 50` too where
there is no OLD, or it is none of a desk's, and `fault 51` where it is of another version; standard error says
of which of the two. Where a run was killed there is no NEW, and it is run again: what it left, NEW-unfinished,
goes then.

Example:
  ./desk migrate examples/earlier.db new.db";
