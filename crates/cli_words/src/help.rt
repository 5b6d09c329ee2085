// The texts of help, and the version.
ghost use Rattle.std.specs.Prelude.{◌≡◌, IfOk, string_bytes};
ghost use Rattle.cli_words.specs.Help.{help_of, version_line};

use crate::build::BUILD;
use crate::subcommand::Subcommand;
use std::alloc::{AllocError, Global};

/// What stands on standard error where there is no word.
pub const OVERVIEW: &str = "ledgerd runs statements over ledger tables, and verifies images of them.
usage: ledgerd [-C FOLDER] [--quiet] COMMAND, which is one of these:
       step, run, replay, upgrade    run statements, and save an image
       verify, extract, asof         verify images, compare and query them
       receipt, join, check, gen     make and check receipts; run a workload
`ledgerd --help` says what each does, `ledgerd COMMAND --help` more of one.
";

/// The program's name and version.
pub const VERSION: &str = "ledgerd 0.1.0";

/// The logic that the proofs of its sources are in: the last word of `rt version`.
pub const LOGIC: &str = "dac8208d650f15bf";

/// Help on all commands.
pub const HELP: &str =
    "ledgerd runs SQL statements over ledger tables in memory, saves the result to
files, and verifies such files.

  ledgerd [-C FOLDER] [--quiet] COMMAND
                                runs one of these commands:
  ledgerd step --save NAME [--from JOURNAL]
                                runs the input's statements one at a time and
                                saves the result; with --from, continues from an
                                earlier journal
  ledgerd run --save NAME [--from JOURNAL]
                                runs sessions in parallel, and saves the same
  ledgerd verify IMAGE [DIGESTS]
                                checks an image against digests, or by itself
  ledgerd extract HONEST SUSPECT DIGESTS
                                compares two images: one history, or proof of a
                                forgery
  ledgerd replay JOURNAL --save NAME
                                runs a journal again and saves its image
  ledgerd upgrade IMAGE --save NAME
                                saves an image in the newest version
  ledgerd receipt IMAGE DIGESTS TX --save NAME
                                makes the receipt of one transaction
  ledgerd join IMAGE DIGESTS --save NAME
                                joins digests by the blocks between them
  ledgerd check RECEIPT DIGESTS checks a receipt or a chain, without the image
  ledgerd asof IMAGE N [--digests DIGESTS]
                                runs SELECTs on an image as of its first N
                                transactions
  ledgerd gen COUNT             runs and verifies a workload, to measure with
  ledgerd COMMAND --help        says more about a command, as `ledgerd help
                                COMMAND` and `ledgerd COMMAND -h` do
  ledgerd --help, -h or help    prints this text
  ledgerd --version or -V       prints the version

With `-C FOLDER` the files are those of FOLDER, otherwise those of the current
folder. On a terminal, long commands show the seconds elapsed; `--quiet` turns
this off. Both go before the command, in either order, each at most once.

A file is named by its name alone: letters, digits, `_`, `-` or `.`, the first a
letter or a digit; 1 to 100 of them in NAME, which files are saved under, and 1
to 128 in the others. Files are written with mode 0640, less what the umask
forbids. An option and its value are two words, or one: `--save NAME` or
`--save=NAME`.

Limits: 4 MiB and 64 sessions for an input, 256 MiB for an image or a journal,
32 MiB for digests, 16 MiB for a receipt.

Exit statuses; from 2 on, standard error says more:
   0  the work is done; `verify` and `check` said Yes, `extract` said Same
   1  `verify`, `receipt`, `join`, `check` or `asof` said No; `extract` said it
      about an image, or found a collision
   2  usage error                        3  a limit was exceeded
   4  reading the input failed           5  writing the output failed
   6  a file can't be read or written    7  no such file or folder
   8  bad digests                        9  bad journal
  10  bad input: a line can't be read   11  not an image
  12  out of memory                     14  no such entry
  15  bad receipt                       16  not so many transactions
  17  no digest is held

Pages, in docs/ of the repository: tutorial.md (the first steps), and in
docs/reference/: sql.md (input and statements), codes.md, statuses.md,
verdicts.md (what `verify` says), formats.md (the bytes of the files).

Example, from the top of the repository:
  ./ledgerd step --save balance < examples/balance.txt
";

/// Help on `step`.
pub const STEP_HELP: &str =
    "ledgerd [-C FOLDER] [--quiet] step --save NAME [--from J | --database D]
        [--block-size N] [--clock T]

Runs the statements of standard input, `session: statement` on each line, one
after another, and prints each with its answer. It writes NAME.img, the image of
the database; NAME.journal, what was committed, with the replies; NAME.digests,
the digests; and NAME-m.img for each number m that a SAVE IMAGE answered, the
image of the first m items of the journal. Files of these names are replaced.
With --from it runs the journal J again first and continues from its end:
NAME.journal begins with the items of J. The database has the name that it has
in J.
N is the number of transactions in a block, 1 to 100,000; the default is
100,000. T is the time of everything that is done, in ticks of 100 nanoseconds
since 1970; without it the clock is asked. D is the name of the database, 1 to
64 letters, digits, `_`, `-` or `.`; the default is LedgerDB.

A statement that fails is answered with a code, and doesn't end its transaction;
docs/reference/codes.md has an example of each code and its cure:
  E01 syntax error                    E02 no such table
  E03 a name is taken or reserved     E04 no such column
  E05 types that don't fit            E06 NULL where it isn't allowed
  E07 the key exists already          E08 a number out of range
  E09 a text or bytes too long        E10 the table is append-only
  E11 the table is read-only          E12 a key can't be changed
  E13 outside a transaction           E14 inside a transaction already
  E15 no such savepoint               E16 a limit is passed
  E17 not inside a transaction        E18 more or fewer values than columns
  E19 nothing is committed            E20 locked; the holder's id follows
  E30 out of memory

Example, from the top of the repository:
  ./ledgerd step --save shop --clock 0 < examples/shop.txt
";

/// Help on `run`.
pub const RUN_HELP: &str = "ledgerd [-C FOLDER] [--quiet] run --save NAME [--from J | --database D]
        [--block-size N] [--clock T]

Runs the sections of standard input, and prints each statement with its answer.
The `-- setup` section, the first, runs first. Then all `-- session S` sections
run in parallel, one thread each, while another thread closes blocks. A section
`-- snapshot S` saves an image, and its SELECTs are answered from that image, as
by `asof`. Any other line that begins with `--` is a comment.
It writes the files that `step` writes. J, N, T and D are those of `step`.

A statement that fails is answered with a code, and doesn't end its transaction;
docs/reference/codes.md has an example of each code and its cure:
  E01 syntax error                    E02 no such table
  E03 a name is taken or reserved     E04 no such column
  E05 types that don't fit            E06 NULL where it isn't allowed
  E07 the key exists already          E08 a number out of range
  E09 a text or bytes too long        E10 the table is append-only
  E11 the table is read-only          E12 a key can't be changed
  E13 outside a transaction           E14 inside a transaction already
  E15 no such savepoint               E16 a limit is passed
  E17 not inside a transaction        E18 more or fewer values than columns
  E19 nothing is committed            E20 locked; the holder's id follows
  E21 not a SELECT (in snapshots)      E30 out of memory

Example, from the top of the repository; it writes seats.img, seats.digests and
seats.journal:
  ./ledgerd run --save seats < examples/seats.txt
";

/// Help on `verify`.
pub const VERIFY_HELP: &str = "ledgerd [-C FOLDER] [--quiet] verify [--coverage] IMAGE [DIGESTS]
        [--workers W]

Checks the image IMAGE against the digests DIGESTS. It prints `Yes` and ends
with status 0 if the image fits together and has the block of each digest.
Otherwise it prints `No`, the first condition that fails and its place, and ends
with status 1; docs/reference/verdicts.md explains each. It writes no file.
Standard error says how many transactions the digests cover, unless --quiet is
given. With --coverage that is a second line on standard output.
Without DIGESTS only the image itself is checked. If DIGESTS has no digest,
status 17 takes the place of 0.
W is how many threads check the tables of the image, 1 to 16; the default is 1.

Example, from the top of the repository:
  ./ledgerd -C examples verify honest.img honest.digests
";

/// Help on `extract`.
pub const EXTRACT_HELP: &str = "ledgerd [-C FOLDER] [--quiet] extract HONEST SUSPECT DIGESTS

Verifies the images HONEST and SUSPECT with the digests DIGESTS, and prints the
verdict on the first that isn't accepted. If both are, it prints `Same` and ends
with status 0 if everything that the digests cover is the same in both.
Otherwise it prints `Collision` and two byte strings with the same SHA-256.
If DIGESTS has no digest, status 17 takes the place of 0. It writes no file.

Example, from the top of the repository:
  ./ledgerd -C examples extract honest.img rewritten.img honest.digests
";

/// Help on `replay`.
pub const REPLAY_HELP: &str = "ledgerd [-C FOLDER] [--quiet] replay JOURNAL --save NAME

Runs the journal JOURNAL again, as `step` and `run` save one, and prints how
many transactions it has. If every statement gives the reply that the journal
has, it writes NAME.img, the journal's image, and NAME.journal, its own bytes.

Example, from the top of the repository, after that of `step`:
  ./ledgerd replay shop.journal --save again
";

/// Help on `upgrade`.
pub const UPGRADE_HELP: &str = "ledgerd [-C FOLDER] [--quiet] upgrade IMAGE --save NAME

Reads the image IMAGE, of version 1 or 2, writes NAME.img, the same image in
version 2, and prints `upgraded`. It verifies nothing, and `verify` says the
same of both with any digests. docs/reference/formats.md has the versions.

Example, from the top of the repository:
  ./ledgerd -C examples upgrade honest.img --save newest
";

/// Help on `receipt`.
pub const RECEIPT_HELP: &str = "ledgerd [-C FOLDER] [--quiet] receipt IMAGE DIGESTS TX
        [--table ID [--event N]] --save NAME

Verifies the image IMAGE with the digests DIGESTS, and prints the verdict if it
is No. Otherwise it writes NAME.receipt and prints `receipt`, the transaction's
block and its place there. The receipt shows that the transaction with the id TX
is covered by the digest of the greatest block. Anyone with that digest can
check it with `check`, without the image.
With --table it also shows everything that the transaction did in the table ID:
each row version that it started or ended there, and no other. With --event it
shows only the one with number N in the transaction, from 0.
TX is a number from 1 on, as `committed` prints it; ID is the table's in
`SELECT table_id, name FROM sys_ledger_tables`.

Example, from the top of the repository:
  ./ledgerd -C examples receipt honest.img honest.digests 2 --save payment
";

/// Help on `join`.
pub const JOIN_HELP: &str = "ledgerd [-C FOLDER] [--quiet] join IMAGE DIGESTS --save NAME

Verifies the image IMAGE with the digests DIGESTS, and prints the verdict if it
is No. Otherwise it writes NAME.chain, the records of all blocks from the least
to the greatest of the digests, and prints `joined` with the numbers of these
two. With the chain, `check` shows without the image that the newest digest
continues the history of each other, so that only the newest has to be kept.

Example, from the top of the repository:
  ./ledgerd -C examples join honest.img honest.digests --save months
";

/// Help on `check`.
pub const CHECK_HELP: &str = "ledgerd [-C FOLDER] [--quiet] check RECEIPT DIGESTS

Checks the receipt RECEIPT against the first of the digests DIGESTS that is of
its last block. It prints `Yes` and ends with status 0 if it holds: then no
image that verifies with this digest has another transaction at this place, nor,
with a receipt made by --table, other changes by it in the table.
RECEIPT may also be a chain, as `join` writes it. It holds if each digest is
that of one of its records, and `Yes` is followed by its first and last block.
Otherwise it ends with status 1 and prints `No digest of block K` if no digest
is of the last block, K; `No join of block K` if a chain is good, but leaves out
the digest of block K; or else `No receipt`. It writes no file.

Example, from the top of the repository, after that of `receipt`:
  ./ledgerd -C examples check payment.receipt honest.digests
";

/// Help on `asof`.
pub const ASOF_HELP: &str = "ledgerd [-C FOLDER] [--quiet] asof IMAGE N [--digests DIGESTS]

Runs SELECTs on the database as it was after the first N transactions of the
image IMAGE, in ledger order: the N of `committed .. at N`. It reads a text from
each line of standard input, skips empty lines and lines that begin with `--`,
and prints each text with its answer. Rows, histories, ledger views and
definitions are those of that moment.
The image is verified first, with the digests DIGESTS if they are given; if that
fails, the No is printed and the status is 1. Without digests the answers are
only as trustworthy as the person who gave you the image.
N is 0 to 2^63 - 1; if the image has fewer transactions the status is 16. It
writes no file.

A text that fails is answered with a code of `step --help`, or with
  E21 not a SELECT

Example, from the top of the repository:
  echo 'SELECT * FROM sys_ledger_tables' \\
    | ./ledgerd -C examples asof honest.img 1 --digests honest.digests
";

/// Help on `gen`.
pub const GEN_HELP: &str = "ledgerd [-C FOLDER] [--quiet] gen COUNT

Runs four sessions in parallel, each of which inserts COUNT rows into a table of
its own and changes every tenth. Then it closes the ledger, issues a digest and
verifies the image with it. It prints how many transactions were committed, how
many rows there are, how many versions have ended, the sum of the rows' values,
and the verdict.
COUNT is 1 to 10,000. It reads no input and writes no file.

Example, from the top of the repository:
  time ./ledgerd gen 1000
";

/// The words of the command that stands first, as its help begins; none where no command does.
pub fn usage_of(words: &[String]) -> Option<&'static str> {
    let which = Subcommand::named(words.first()?.as_str())?;
    let (usage, _) = help_text(Some(which)).split_once("\n\n")?;
    Some(usage)
}

/// The help on a command, or on all where none is given.
pub fn help_text(which: Option<Subcommand>) -> &'static str
    ensures { result.now ≡ help_of which }
{
    match which {
        None => HELP,
        Some(Subcommand::Step) => STEP_HELP,
        Some(Subcommand::Run) => RUN_HELP,
        Some(Subcommand::Verify) => VERIFY_HELP,
        Some(Subcommand::Extract) => EXTRACT_HELP,
        Some(Subcommand::Replay) => REPLAY_HELP,
        Some(Subcommand::Upgrade) => UPGRADE_HELP,
        Some(Subcommand::Gen) => GEN_HELP,
        Some(Subcommand::Receipt) => RECEIPT_HELP,
        Some(Subcommand::Join) => JOIN_HELP,
        Some(Subcommand::Check) => CHECK_HELP,
        Some(Subcommand::AsOf) => ASOF_HELP,
    }
}

/// The program's name and version, how it was made, and the logic of its proofs.
pub fn version_text(alloc: Global) -> Result<String, AllocError>
    ensures { IfOk result (λ text. string_bytes text ≡ version_line) }
{
    Ok(format!(in alloc; "{VERSION} ({BUILD}, logic {LOGIC})\n")?)
}
