// What `midraukle help` prints.
pub const HELP: &str = "\
midraukle: loads, shows and writes rules, and asks hosts

  midraukle                    an example, from the bytes of a rule file to tables and back
  midraukle show RULE          the types and the term of the rule file RULE, as words and as a tree
  midraukle assemble TEXT OUT  the rule in the text file TEXT to the rule file OUT, which is replaced
                               if the rule is good, and left as it was if not
  midraukle listing FILE TODAY the versions of the listing FILE, and what the host answers of each on that day
  midraukle script             commands from standard input, one a line; one line answers each
  midraukle explain NUMBER     the question NUMBER, which a refusal names
  midraukle help               this text; also --help and -h

The status is 0 where what was asked for happened. Otherwise it is 1, with a message on standard error.

TEXT has a word for each type record and then one for each node; # starts a comment:

  TF0/0                        # entry 6: nat -> nat
  AP LA6 AP VA0 ZE LA0 SU VA0  # a function of a function, applied to the successor

Entries 0 to 5 are given: nat, unit, void, unit + unit, unit + nat, nat * nat. Later ones are TF function,
TP product and TS sum, with two lower type numbers. Nodes are VA variable, ZE zero, SU successor,
RE recursion, LA function, AP application, TR unit value, PA pair, FS and SN its parts, AB abort,
IL and IR the sides of a sum, CA case, QU query. VA, LA, AB, IL, IR and QU have a number.

FILE has a line for each version: its published day, its withdrawn day (0 for never), its line and its
patch; # starts a comment.

A script starts with empty tables, an empty file, no rule, the count 0, and a listing without versions as
its host. Its commands:

  tables NODES TYPES SCRATCH BYTES  new tables of these lengths, filled with FS9, TP9/9, 9 and 09; no
                                    rule, count 0
  file HEX                          the bytes to load; without HEX none
  load                              the file into the node table and the type table; its nodes are the rule
  nodes WORD..                      the node table becomes these nodes, and they are the rule
  types WORD..                      the given six entries and then these; the count is set
  entry I WORD                      entry I becomes TN, TU, TV, TFL/R, TPL/R, TSL/R or --
  count K                           the count that write is given
  write                             the rule, with the type table and the count, into the byte list
  dump nodes|types|scratch|bytes    what the table holds; WORD*K stands for K equal words in a row
  listing TODAY [P/W/L/Q ..]        the host becomes a listing: published and withdrawn day, line, patch
  sheet PROFILE [Q/N/A/B ..]        the host becomes a sheet: 8 hexadecimal digits, and lines of question,
                                    number, a and b
  profile                           the host's profile
  ask QUESTION NUMBER               what the host answers, or missing

A line that cannot be read is answered 'error: WHY' and changes nothing. A refusal is answered
'refused LAYER NUMBER PLACE CHILD: WHAT WAS NEEDED'. Blank lines and lines that begin with # get no answer.

Examples:

  echo 'AP LA0 SU VA0 ZE' > one.txt && midraukle assemble one.txt one.rule && midraukle show one.rule
  printf 'tables 0 6 0 12\\nnodes ZE\\ntypes\\nwrite\\n' | midraukle script
  midraukle explain 7
  printf 'listing 300 100/0/1/2\\nask 1 0\\n' | midraukle script
";
