//! What `wire_up --help` says below the list of commands.

/// Every fault by its number, and every exit status.
pub const FAULTS_AND_STATUSES: &str = "\
Faults, as one line on standard error, such as 'wire_up: fault 4 BadLine 7':
   1 Memory            the system refused memory
   2 TooLong LINE      the file (--large lifts its limit), a name, a key or a value is too long
   3 BadHeader LINE    the first line that isn't blank or a comment isn't 'rehearsal 1' or 2, nor 'pattern 1'
   4 BadLine LINE      a line isn't one of the format, or stands in the wrong place
   5 UnknownName LINE  a node, a job, a role or a rank isn't declared
   6 Twice LINE        a node, a job or a role is declared twice
   7 NotMember LINE    a rank calls a fence over a set that it isn't in
   8 TooMany LINE      there are more nodes, jobs, ranks or calls than the limit, which --large lifts
   9 Workers           the number of workers isn't 1 to 64
  10 Read              a file or standard input can't be opened or read
  11 Write BYTES       the output can't be written, after so many bytes
  12 NotReady STEP     a step of the order can't be taken when it comes
  13 BadOrder N        line N of the order, word N of the question, rank N of 'place' or part N of 'expand --ranks'
                       names nothing in the file

Exit statuses:
   0  done, and nothing was found
   1  'check' or 'replay' found something, 'witness' showed something, or with --complete a call didn't succeed
   2  the file, the order, the question, a rank or the number of workers is refused (faults 2 to 9, 12 and 13)
   3  out of memory (fault 1)
   4  reading or writing failed (faults 10 and 11)
   5  the command line can't be read";
