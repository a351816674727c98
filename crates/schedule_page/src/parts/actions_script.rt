//! A text of the page: `page/play/actions.js`. Made by `page/embed.py`.

pub(crate) const TEXT: &str =
    r#"// ---------------------------------------------------------------- what the steps of the way did

const codeWords = data.code.map((digits) => BigInt(`0x${digits}`));
// by number: whether an operation of the memory part writes its register
const IS_ANSWERED = [false, true, false, true, true, false, false];
const [CALL, XCHG, TSET, TGET, XGET, RESERVE, QUIT, QUITP] = [3, 4, 5, 6, 7, 8, 10, 11];

/** What an instruction word computes from which registers of its stream (docs/FORMATS.md, "Instruction words"). */
function flowOf(word) {
  const bits = (low, many) => Number((word >> BigInt(low)) & ((1n << BigInt(many)) - 1n));
  if (bits(63, 1)) return bits(57, 3) === 2 ? { wide: true, target: bits(52, 3) } : { wide: true,
    register: bits(57, 3) === 0 ? bits(52, 5) : 0 };
  const [memory, arithmetic, control] = [bits(57, 3), bits(35, 4), bits(14, 4)];
  return {
    stored: bits(50, 5),
    answer: IS_ANSWERED[memory] ? bits(50, 5) : 0,
    result: arithmetic ? bits(28, 5) : 0,
    operands: arithmetic ? [bits(23, 5), bits(33, 1) ? 0 : bits(18, 5)] : [0, 0],
    control,
    left: [TGET, XGET, RESERVE].includes(control) ? bits(6, 5) : 0,
    t: bits(11, 3),
    u: bits(8, 3),
    from: bits(6, 5),
  };
}
const flows = codeWords.map(flowOf);

/** What a step of stream k from state w to state v did: how its registers flow, and what became of its word. */
function actionOf(w, k, v) {
  const [outcome, operation, , , address, , reply] = recordOf(w, k);
  const flow = outcome === "done" ? flows[content(w, k).pc] : outcome.startsWith("trapped") ? "trap" : undefined;
  if (reply === undefined || reply === null) return { k, flow };
  const [[before, wasTags], [after, isTags]] = [wordAt(w, address), wordAt(v, address)];
  const isChange = before !== after || ((wasTags ^ isTags) & 1) === 1;
  return { k, flow, word: address, operation, before, after, wasFull: (wasTags & 1) === 1, isChange };
}

const reads = (step, a) => step.word === a && (step.operation === "LOAD" || step.operation === "FADD");
const writes = (step, a) => step.word === a && step.isChange;
const wasFullStore = (step) => step.operation === "STORE" && step.wasFull;
/** Whether its stream learns from a step what others did to the word. */
const isHeard = (step) => ["LOAD", "FADD", "TAGGET"].includes(step.operation)
  || (step.operation === "STORE" && !step.wasFull);
/** Whether a step changed the value of a full word. */
const changesValue = (step) => step.word !== undefined && step.before !== step.after && step.wasFull;

// ---------------------------------------------------------------- which registers are computed from a read

// Marks are bits of registers and of target registers; r0 has none.
const marked = (bits, r) => ((bits >>> r) & 1) === 1;
const withMark = (bits, r, is) => (r === 0 ? bits : withTarget(bits, r, is));
const withTarget = (bits, t, is) => (is ? bits | (1 << t) : bits & ~(1 << t));
const NO_MARKS = { registers: 0, targets: 0 };
const mixed = (marks, { operands }) => operands.some((r) => marked(marks.registers, r));

/** The marks of a stream after a step of it; `isAnswer` where what it read is marked. */
function marksAfter(marks, { flow }, isAnswer) {
  let { registers, targets } = marks;
  if (flow === undefined) return marks;
  if (flow === "trap") return { registers, targets: withTarget(targets, 0, false) };
  if (flow.wide) {
    return flow.target === undefined ? { registers: withMark(registers, flow.register, false), targets }
      : { registers, targets: withTarget(targets, flow.target, false) };
  }
  const { control } = flow;
  if (control === QUIT || control === QUITP) return NO_MARKS;
  registers = withMark(registers, flow.answer, isAnswer);
  registers = withMark(registers, flow.result, mixed(marks, flow));
  registers = withMark(registers, flow.left, control === TGET && marked(targets, flow.t));
  if (control === CALL) targets = withTarget(targets, flow.u, false);
  if (control === XCHG) targets = withTarget(targets, flow.t, false);
  if (control === TSET) targets = withTarget(targets, flow.t, marked(marks.registers, flow.from));
  return { registers, targets };
}
"#;
