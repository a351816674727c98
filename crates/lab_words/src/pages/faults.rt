//! Pages of `explain`: docs/words/faults.txt. Made by docs/words/make.py.

pub(crate) const TEXT: &str = r"= E1 NotAscii
Fault 1: a byte above 7F, in mta_sim in a comment too. mta_lab takes any letters in comments.

= E2 Unknown
Fault 2: the operation, its suffix or the directive is unknown, or a label has characters that none may have.

What to do: names are in capitals, as ADD and LOAD.S; a label has its colon directly after it. PURGE wants .profile 2.

= E3 Operand
Fault 3: the operands are not those that the operation takes.

What to do: explain and the operation's name shows its form. Registers are r0 to r31, t0 to t7; commas stand between.

= E4 Range
Fault 4: a number is out of range.

  immediates      32 bits         displacements   -32 to 31 words
  last operands   0 to 31         SKIP            128 words on, 127 back
  codes           0 to 3          tags            0 to 15

= E5 TwoWriters
Fault 5: two operations of one word write the same register. Use two words, or another register.

= E6 LabelTwice
Fault 6: the label stands on an earlier line. Rename one of them.

= E7 LabelMissing
Fault 7: the label stands on no line. Check its spelling, or write it before the instruction that it names.

= E8 Directive
Fault 8: a directive stands twice, or the text has no .entry, no instruction or no data word.

= E9 Limit
Fault 9: more than 65,536 instructions, 262,144 data words or 16 entries.

= E10 NoMemory
Fault 10: memory was refused.

= 101
Warning 101: no stream can reach this word, in any schedule.

What to do: take the word away, or mend the SKIP or JUMP that should lead to it. .word adds no data.

= 102
Warning 102: the label of a data line is the number of the next instruction, and no address. Write the address.

= 103
Warning 103: the condition asks the code from before this word. What .T makes counts from the next word on.

What to do: put the SKIP or JUMP into the next word.

= 104
Warning 104: on every path to here the base holds a label, and no address. Data words are at [0], [8], [16] and so on.

= 105
Warning 105: on every path to here the pointer's bits 59 and 60 say how this reference waits.

What to do: write .N, .F or .S to say it in the program.

= 106
Warning 106: a comment is not ASCII, or a byte order mark stands before the text. mta_lab reads it, mta_sim does not.

= 107
Warning 107: a SKIP or JUMP asks a condition code, and no .T has made it on any path to there.

What to do: write .T after the operation that compares, as SUB.T r0, r1, 10. 0 is the newest code.

= 108
Warning 108: a stream that goes on from here is past the end of the program, and traps (trap 1).

What to do: end it by QUIT.

= 109
Warning 109: a stream that goes on from here is in the code of another processor. End it by QUIT.

= 110
Warning 110: a loop never ends once it repeats, since nothing that it asks changes in it.

What to do: change a register that it compares, or wait for a word by LOAD.F or LOAD.S.

= 111
Warning 111: the address here is that of no data word, or no reference may use the pointer: it traps (4, 5 or 6).

What to do: an address counts bytes, a displacement words. LOAD.N r1, r0, 2 reads [16], the third data word.

= 112
Warning 112: a reference waits for a word that is full, or empty, from the start on, and nothing in the program changes that.

What to do: .data 0 begins full, .data 0, 0 empty. STORE.S fills a word, LOAD.S empties it.

= 113
Warning 113: a result, a number or what a LOAD reads goes to r0, which is always 0.

What to do: write r1 to r31, or .T to make a code. LOAD.F and LOAD.S wait for a full word, also with r0.

= 114
Warning 114: a comment is the name of its data word, and another line has the name too: so it names no word.

What to do: .data 0 ; total names a word for mta_lab. Take another name, or more words of comment.

= 115
Warning 115: after ; stands an instruction or a directive. It is a comment, and no part of the program.

What to do: write it on a line of its own. A bar | stands between the operations of one word.

= 116
Warning 116: a reference waits for a word that begins empty, or full, and only streams that wait so first change that.

What to do: a lock begins full (.data 0), as LOAD.S takes it and STORE.S releases it. One of two streams goes first.
";
