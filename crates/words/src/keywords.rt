// The words that are no names, sorted: the alternative tokens of ISO C++ [lex.digraph] and the keywords of [lex.key],
// with those that C++20 adds. One table, so that it can be lent as one.
pub const TABLE: [u16; 971] = [
    // Their lengths.
    7, // alignas
    7, // alignof
    3, // and
    6, // and_eq
    3, // asm
    4, // auto
    6, // bitand
    5, // bitor
    4, // bool
    5, // break
    4, // case
    5, // catch
    4, // char
    8, // char16_t
    8, // char32_t
    7, // char8_t
    5, // class
    8, // co_await
    9, // co_return
    8, // co_yield
    5, // compl
    7, // concept
    5, // const
    10, // const_cast
    9, // consteval
    9, // constexpr
    9, // constinit
    8, // continue
    8, // decltype
    7, // default
    6, // delete
    2, // do
    6, // double
    12, // dynamic_cast
    4, // else
    4, // enum
    8, // explicit
    6, // export
    6, // extern
    5, // false
    5, // float
    3, // for
    6, // friend
    4, // goto
    2, // if
    6, // inline
    3, // int
    4, // long
    7, // mutable
    9, // namespace
    3, // new
    8, // noexcept
    3, // not
    6, // not_eq
    7, // nullptr
    8, // operator
    2, // or
    5, // or_eq
    7, // private
    9, // protected
    6, // public
    8, // register
    16, // reinterpret_cast
    8, // requires
    6, // return
    5, // short
    6, // signed
    6, // sizeof
    6, // static
    13, // static_assert
    11, // static_cast
    6, // struct
    6, // switch
    8, // template
    4, // this
    12, // thread_local
    5, // throw
    4, // true
    3, // try
    7, // typedef
    6, // typeid
    8, // typename
    5, // union
    8, // unsigned
    5, // using
    7, // virtual
    4, // void
    8, // volatile
    7, // wchar_t
    5, // while
    3, // xor
    6, // xor_eq
    // How many characters each shares with the one before it, from the first on.
    0, // alignas
    5, // alignof
    1, // and
    3, // and_eq
    1, // asm
    1, // auto
    0, // bitand
    3, // bitor
    1, // bool
    1, // break
    0, // case
    2, // catch
    1, // char
    4, // char16_t
    4, // char32_t
    4, // char8_t
    1, // class
    1, // co_await
    3, // co_return
    3, // co_yield
    2, // compl
    2, // concept
    3, // const
    5, // const_cast
    5, // consteval
    6, // constexpr
    5, // constinit
    3, // continue
    0, // decltype
    2, // default
    2, // delete
    1, // do
    2, // double
    1, // dynamic_cast
    0, // else
    1, // enum
    1, // explicit
    3, // export
    2, // extern
    0, // false
    1, // float
    1, // for
    1, // friend
    0, // goto
    0, // if
    1, // inline
    2, // int
    0, // long
    0, // mutable
    0, // namespace
    1, // new
    1, // noexcept
    2, // not
    3, // not_eq
    1, // nullptr
    0, // operator
    1, // or
    2, // or_eq
    0, // private
    2, // protected
    1, // public
    0, // register
    2, // reinterpret_cast
    2, // requires
    2, // return
    0, // short
    1, // signed
    2, // sizeof
    1, // static
    6, // static_assert
    7, // static_cast
    2, // struct
    1, // switch
    0, // template
    1, // this
    2, // thread_local
    3, // throw
    1, // true
    2, // try
    1, // typedef
    4, // typeid
    4, // typename
    0, // union
    2, // unsigned
    1, // using
    0, // virtual
    1, // void
    2, // volatile
    0, // wchar_t
    1, // while
    0, // xor
    3, // xor_eq
    // 1 for a word of C++20 that C++17 does not have, else 0.
    0, // alignas
    0, // alignof
    0, // and
    0, // and_eq
    0, // asm
    0, // auto
    0, // bitand
    0, // bitor
    0, // bool
    0, // break
    0, // case
    0, // catch
    0, // char
    0, // char16_t
    0, // char32_t
    1, // char8_t
    0, // class
    1, // co_await
    1, // co_return
    1, // co_yield
    0, // compl
    1, // concept
    0, // const
    0, // const_cast
    1, // consteval
    0, // constexpr
    1, // constinit
    0, // continue
    0, // decltype
    0, // default
    0, // delete
    0, // do
    0, // double
    0, // dynamic_cast
    0, // else
    0, // enum
    0, // explicit
    0, // export
    0, // extern
    0, // false
    0, // float
    0, // for
    0, // friend
    0, // goto
    0, // if
    0, // inline
    0, // int
    0, // long
    0, // mutable
    0, // namespace
    0, // new
    0, // noexcept
    0, // not
    0, // not_eq
    0, // nullptr
    0, // operator
    0, // or
    0, // or_eq
    0, // private
    0, // protected
    0, // public
    0, // register
    0, // reinterpret_cast
    1, // requires
    0, // return
    0, // short
    0, // signed
    0, // sizeof
    0, // static
    0, // static_assert
    0, // static_cast
    0, // struct
    0, // switch
    0, // template
    0, // this
    0, // thread_local
    0, // throw
    0, // true
    0, // try
    0, // typedef
    0, // typeid
    0, // typename
    0, // union
    0, // unsigned
    0, // using
    0, // virtual
    0, // void
    0, // volatile
    0, // wchar_t
    0, // while
    0, // xor
    0, // xor_eq
    // For each small letter the first word that begins with it, or 92.
    0, // a
    6, // b
    10, // c
    28, // d
    34, // e
    39, // f
    43, // g
    92, // h
    44, // i
    92, // j
    92, // k
    47, // l
    48, // m
    49, // n
    55, // o
    58, // p
    92, // q
    61, // r
    65, // s
    73, // t
    82, // u
    85, // v
    88, // w
    90, // x
    92, // y
    92, // z
    // Where the characters of each begin.
    0, // alignas
    7, // alignof
    14, // and
    17, // and_eq
    23, // asm
    26, // auto
    30, // bitand
    36, // bitor
    41, // bool
    45, // break
    50, // case
    54, // catch
    59, // char
    63, // char16_t
    71, // char32_t
    79, // char8_t
    86, // class
    91, // co_await
    99, // co_return
    108, // co_yield
    116, // compl
    121, // concept
    128, // const
    133, // const_cast
    143, // consteval
    152, // constexpr
    161, // constinit
    170, // continue
    178, // decltype
    186, // default
    193, // delete
    199, // do
    201, // double
    207, // dynamic_cast
    219, // else
    223, // enum
    227, // explicit
    235, // export
    241, // extern
    247, // false
    252, // float
    257, // for
    260, // friend
    266, // goto
    270, // if
    272, // inline
    278, // int
    281, // long
    285, // mutable
    292, // namespace
    301, // new
    304, // noexcept
    312, // not
    315, // not_eq
    321, // nullptr
    328, // operator
    336, // or
    338, // or_eq
    343, // private
    350, // protected
    359, // public
    365, // register
    373, // reinterpret_cast
    389, // requires
    397, // return
    403, // short
    408, // signed
    414, // sizeof
    420, // static
    426, // static_assert
    439, // static_cast
    450, // struct
    456, // switch
    462, // template
    470, // this
    474, // thread_local
    486, // throw
    491, // true
    495, // try
    498, // typedef
    505, // typeid
    511, // typename
    519, // union
    524, // unsigned
    532, // using
    537, // virtual
    544, // void
    548, // volatile
    556, // wchar_t
    563, // while
    568, // xor
    571, // xor_eq
    // The characters of all.
    97, // alignas
    108, 105, 103, 110, 97, 115, 97, // alignof
    108, 105, 103, 110, 111, 102, 97, // and
    110, 100, 97, // and_eq
    110, 100, 95, 101, 113, 97, // asm
    115, 109, 97, // auto
    117, 116, 111, 98, // bitand
    105, 116, 97, 110, 100, 98, // bitor
    105, 116, 111, 114, 98, // bool
    111, 111, 108, 98, // break
    114, 101, 97, 107, 99, // case
    97, 115, 101, 99, // catch
    97, 116, 99, 104, 99, // char
    104, 97, 114, 99, // char16_t
    104, 97, 114, 49, 54, 95, 116, 99, // char32_t
    104, 97, 114, 51, 50, 95, 116, 99, // char8_t
    104, 97, 114, 56, 95, 116, 99, // class
    108, 97, 115, 115, 99, // co_await
    111, 95, 97, 119, 97, 105, 116, 99, // co_return
    111, 95, 114, 101, 116, 117, 114, 110, 99, // co_yield
    111, 95, 121, 105, 101, 108, 100, 99, // compl
    111, 109, 112, 108, 99, // concept
    111, 110, 99, 101, 112, 116, 99, // const
    111, 110, 115, 116, 99, // const_cast
    111, 110, 115, 116, 95, 99, 97, 115, 116, 99, // consteval
    111, 110, 115, 116, 101, 118, 97, 108, 99, // constexpr
    111, 110, 115, 116, 101, 120, 112, 114, 99, // constinit
    111, 110, 115, 116, 105, 110, 105, 116, 99, // continue
    111, 110, 116, 105, 110, 117, 101, 100, // decltype
    101, 99, 108, 116, 121, 112, 101, 100, // default
    101, 102, 97, 117, 108, 116, 100, // delete
    101, 108, 101, 116, 101, 100, // do
    111, 100, // double
    111, 117, 98, 108, 101, 100, // dynamic_cast
    121, 110, 97, 109, 105, 99, 95, 99, 97, 115, 116, 101, // else
    108, 115, 101, 101, // enum
    110, 117, 109, 101, // explicit
    120, 112, 108, 105, 99, 105, 116, 101, // export
    120, 112, 111, 114, 116, 101, // extern
    120, 116, 101, 114, 110, 102, // false
    97, 108, 115, 101, 102, // float
    108, 111, 97, 116, 102, // for
    111, 114, 102, // friend
    114, 105, 101, 110, 100, 103, // goto
    111, 116, 111, 105, // if
    102, 105, // inline
    110, 108, 105, 110, 101, 105, // int
    110, 116, 108, // long
    111, 110, 103, 109, // mutable
    117, 116, 97, 98, 108, 101, 110, // namespace
    97, 109, 101, 115, 112, 97, 99, 101, 110, // new
    101, 119, 110, // noexcept
    111, 101, 120, 99, 101, 112, 116, 110, // not
    111, 116, 110, // not_eq
    111, 116, 95, 101, 113, 110, // nullptr
    117, 108, 108, 112, 116, 114, 111, // operator
    112, 101, 114, 97, 116, 111, 114, 111, // or
    114, 111, // or_eq
    114, 95, 101, 113, 112, // private
    114, 105, 118, 97, 116, 101, 112, // protected
    114, 111, 116, 101, 99, 116, 101, 100, 112, // public
    117, 98, 108, 105, 99, 114, // register
    101, 103, 105, 115, 116, 101, 114, 114, // reinterpret_cast
    101, 105, 110, 116, 101, 114, 112, 114, 101, 116, 95, 99, 97, 115, 116, 114, // requires
    101, 113, 117, 105, 114, 101, 115, 114, // return
    101, 116, 117, 114, 110, 115, // short
    104, 111, 114, 116, 115, // signed
    105, 103, 110, 101, 100, 115, // sizeof
    105, 122, 101, 111, 102, 115, // static
    116, 97, 116, 105, 99, 115, // static_assert
    116, 97, 116, 105, 99, 95, 97, 115, 115, 101, 114, 116, 115, // static_cast
    116, 97, 116, 105, 99, 95, 99, 97, 115, 116, 115, // struct
    116, 114, 117, 99, 116, 115, // switch
    119, 105, 116, 99, 104, 116, // template
    101, 109, 112, 108, 97, 116, 101, 116, // this
    104, 105, 115, 116, // thread_local
    104, 114, 101, 97, 100, 95, 108, 111, 99, 97, 108, 116, // throw
    104, 114, 111, 119, 116, // true
    114, 117, 101, 116, // try
    114, 121, 116, // typedef
    121, 112, 101, 100, 101, 102, 116, // typeid
    121, 112, 101, 105, 100, 116, // typename
    121, 112, 101, 110, 97, 109, 101, 117, // union
    110, 105, 111, 110, 117, // unsigned
    110, 115, 105, 103, 110, 101, 100, 117, // using
    115, 105, 110, 103, 118, // virtual
    105, 114, 116, 117, 97, 108, 118, // void
    111, 105, 100, 118, // volatile
    111, 108, 97, 116, 105, 108, 101, 119, // wchar_t
    99, 104, 97, 114, 95, 116, 119, // while
    104, 105, 108, 101, 120, // xor
    111, 114, 120, // xor_eq
    111, 114, 95, 101, 113,
];
