// A command of a display list, with its fields by the guide's names, from the high bits down. A field is signed where
// the guide calls it so, and every other one a plain number: what it names, `numbers-meant` of crates/invariant tells.
#[derive(Clone, Copy)]
pub enum Word {
    Vertex2f {
        x: i32,
        y: i32,
    },
    Vertex2ii {
        x: u32,
        y: u32,
        handle: u32,
        cell: u32,
    },
    Display,
    BitmapSource {
        addr: u32,
    },
    ClearColorRgb {
        red: u32,
        green: u32,
        blue: u32,
    },
    Tag {
        s: u32,
    },
    ColorRgb {
        red: u32,
        green: u32,
        blue: u32,
    },
    BitmapHandle {
        handle: u32,
    },
    Cell {
        cell: u32,
    },
    BitmapLayout {
        format: u32,
        linestride: u32,
        height: u32,
    },
    BitmapSize {
        filter: u32,
        wrapx: u32,
        wrapy: u32,
        width: u32,
        height: u32,
    },
    AlphaFunc {
        func: u32,
        reference: u32,
    },
    StencilFunc {
        func: u32,
        reference: u32,
        mask: u32,
    },
    BlendFunc {
        src: u32,
        dst: u32,
    },
    StencilOp {
        sfail: u32,
        spass: u32,
    },
    PointSize {
        size: u32,
    },
    LineWidth {
        width: u32,
    },
    ClearColorA {
        alpha: u32,
    },
    ColorA {
        alpha: u32,
    },
    ClearStencil {
        s: u32,
    },
    ClearTag {
        t: u32,
    },
    StencilMask {
        mask: u32,
    },
    TagMask {
        mask: u32,
    },
    BitmapTransformA {
        a: i32,
    },
    BitmapTransformB {
        b: i32,
    },
    BitmapTransformC {
        c: i32,
    },
    BitmapTransformD {
        d: i32,
    },
    BitmapTransformE {
        e: i32,
    },
    BitmapTransformF {
        f: i32,
    },
    ScissorXy {
        x: u32,
        y: u32,
    },
    ScissorSize {
        width: u32,
        height: u32,
    },
    Call {
        dest: u32,
    },
    Jump {
        dest: u32,
    },
    Begin {
        prim: u32,
    },
    ColorMask {
        r: u32,
        g: u32,
        b: u32,
        a: u32,
    },
    End,
    SaveContext,
    RestoreContext,
    Return,
    Macro {
        m: u32,
    },
    Clear {
        c: u32,
        s: u32,
        t: u32,
    },
    VertexFormat {
        frac: u32,
    },
    BitmapLayoutH {
        linestride: u32,
        height: u32,
    },
    BitmapSizeH {
        width: u32,
        height: u32,
    },
    PaletteSource {
        addr: u32,
    },
    VertexTranslateX {
        x: i32,
    },
    VertexTranslateY {
        y: i32,
    },
    Nop,
}
