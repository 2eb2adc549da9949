//! The table of `golden`.

/// Each line is a case: `query` or `form`, the depth limit, the shape, the data, its entries in a shuffled order, and the data that is
/// read if its maps have another order, separated by tabs. For shapes and data see `notation`.
pub const CASES: &str = "\
form\t3\tEnum:2 tuple:%20:1 Bool newtype:04294967296 Seq Tuple:1 I64\tTupleVariant:%20:1 Bool:true\t%20%5B0%5D=true\n\
query\t1\tOption U64\tNone\t\n\
form\t1\tText\tText:04294967296\t=04294967296\n\
form\t5\tEnum:1 unit:%26\tUnitVariant:%26\t=%26\n\
query\t1\tSeq Struct:0:%22?:1 Char Option Bytes Seq Bool\tSeq:0\t=\n\
form\t5\tEnum:1 tuple:true:2 Option Unit Struct:%2531:b Bytes Tuple:2 U32 Unit\tTupleVariant:true:2 Some Unit Struct:%2531:b Bytes:%5Bx%5D Tuple:2 Unsigned:4294967295 Unit\ttrue%5B1%5D%5Bb%5D%5B1%5D=&true%5B1%5D%5B%2531%5D=%5Bx%5D&true%5B0%5D=&true%5B1%5D%5Bb%5D%5B0%5D=4294967295\n\
query\t5\tOption I64\tNone\t\n\
query\t1\tStruct:2:%5Bx%5D:a U32 Text Text\tStruct:2:%5Bx%5D:a Unsigned:4294967295 Text:1%20 Text:%25%2541\t%5Bx%5D=1+&a=%25%2541&2=4294967295\n\
query\t1\tTuple:2 Map:I16 Bytes Newtype Bool\tTuple:2 Map:0 Newtype Bool:true\t1=true&0=\n\
query\t2\tOption Map:Bool Text\tSome Map:1 Bool:true Text:a%5Bb%5D\ttrue=a%5Bb%5D\n\
form\t5\tOption Bytes\tSome Bytes:false\t=false\n\
form\t2\tOption Bytes\tNone\t\n\
query\t2\tSeq Newtype Char\tSeq:3 Newtype Char:%2B Newtype Char:- Newtype Char:%2B\t0=%2B&2=%2B&1=-\n\
query\t2\tChar\tChar:%F0%9F%A6%80\t=%F0%9F%A6%80\n\
query\t3\tOption Bytes\tSome Bytes:10\t=10\n\
form\t2\tU8\tUnsigned:255\t=255\n\
query\t2\tSeq U16\tSeq:1 Unsigned:65535\t0=65535\n\
form\t2\tOption Text\tSome Text:10\t=10\n\
form\t5\tUnit\tUnit\t=\n\
form\t3\tOption Struct:true:4294967296 U64 Bool\tSome Struct:true:4294967296 Unsigned:4294967296 Bool:false\ttrue=4294967296&4294967296=false\n\
form\t1\tBytes\tBytes:%25\t=%25\n\
form\t1\tI32\tSigned:2147483647\t=2147483647\n\
form\t3\tI32\tSigned:2147483647\t=2147483647\n\
query\t5\tEnum:1 newtype:%255B Tuple:2 U8 Bool\tNewtypeVariant:%255B Tuple:2 Unsigned:255 Bool:true\t%255B[1]=true&%255B[0]=255\n\
query\t3\tSeq Text\tSeq:1 Text:%25\t0=%25\n\
query\t3\tEnum:1 newtype:1 Map:Bool Bytes\tNewtypeVariant:1 Map:1 Bool:false Bytes:5B\t1[false]=5B\n\
form\t2\tText\tText:%5D\t=%5D\n\
form\t3\tBool\tBool:false\t=false\n\
form\t1\tUnit\tUnit\t=\n\
form\t1\tSeq Bool\tSeq:2 Bool:false Bool:true\t0=false&1=true\n\
query\t5\tTuple:2 Bool Text\tTuple:2 Bool:true Text:1%2C2\t0=true&1=1,2\n\
form\t1\tOption Tuple:1 Newtype Bytes\tNone\t\n\
form\t5\tOption Seq Enum:2 struct:%26:%2531 Newtype Bool newtype:%22 Enum:1 struct:%20:0?:2?:%00? I64 I32 Bool\tSome Seq:1 NewtypeVariant:%22 StructVariant:%20:2 Signed:2147483647\t0%5B%22%5D%5B%20%5D%5B2%5D=2147483647\n\
query\t2\tMap:Bool I16\tMap:1 Bool:true Signed:-1\ttrue=-1\n\
query\t3\tOption Enum:1 unit:5B\tNone\t\n\
query\t1\tEnum:1 tuple:%00:1 Newtype Text\tTupleVariant:%00:1 Newtype Text:%255B\t%00[0]=%255B\n\
query\t5\tOption Unit\tSome Unit\t=\n\
form\t1\tBytes\tBytes:04294967296\t=04294967296\n\
query\t2\tNewtype U16\tNewtype Unsigned:65535\t=65535\n\
query\t2\tTuple:1 Seq Seq Tuple:0\tTuple:1 Seq:1 Seq:1 Tuple:0\t0[0][0]=\n\
query\t3\tOption Char\tSome Char:1\t=1\n\
query\t3\tChar\tChar:%5B\t=%5B\n\
query\t1\tNewtype Newtype Seq Unit\tNewtype Newtype Seq:11 Unit Unit Unit Unit Unit Unit Unit Unit Unit Unit Unit\t7=&4=&9=&2=&6=&0=&3=&10=&1=&8=&5=\n\
form\t2\tUnit\tUnit\t=\n\
form\t1\tBool\tBool:false\t=false\n\
form\t2\tSeq Option Char\tSeq:0\t=\n\
form\t5\tBool\tBool:false\t=false\n\
form\t2\tStruct:4294967295 Bytes\tStruct:4294967295 Bytes:%26\t4294967295=%26\n\
form\t3\tNewtype Text\tNewtype Text:b\t=b\n\
form\t5\tText\tText:a\t=a\n\
query\t5\tBool\tBool:true\t=true\n\
form\t5\tText\tText:%3D\t=%3D\n\
form\t3\tText\tText:00\t=00\n\
form\t1\tMap:Text Char\tMap:2 Text:10 Char:%C3%A9 Text:%2531 Char:%2B\t10=%C3%A9&%2531=%2B\n\
query\t3\tChar\tChar:0\t=0\n\
form\t5\tI64\tSigned:1\t=1\n\
query\t3\tOption Struct:%20:%2531?:b Char Bytes U16\tNone\t\n\
form\t5\tTuple:2 Unit Char\tTuple:2 Unit Char:1\t1=1&0=\n\
query\t3\tChar\tChar:%00\t=%00\n\
form\t5\tStruct:%255B:%00? Text Bool\tStruct:%255B:%00 Text:1%2C2 Bool:false\t%00=false&%255B=1%2C2\n\
query\t3\tSeq Char\tSeq:1 Char:%3D\t0=%3D\n\
query\t3\tStruct:%3D:10:4294967295 Text Text Char\tStruct:%3D:10:4294967295 Text:%D9%A1 Text:b Char:%F0%9F%A6%80\t4294967295=%F0%9F%A6%80&10=b&%3D=%D9%A1\n\
query\t1\tOption Unit\tSome Unit\t=\n\
query\t2\tText\tText:%25\t=%25\n\
form\t3\tOption Seq Bytes\tSome Seq:3 Bytes:%22 Bytes:2 Bytes:%FF\t0=%22&2=%FF&1=2\n\
query\t2\tBool\tBool:false\t=false\n\
form\t1\tNewtype Option Bytes\tNewtype Some Bytes:%F0%9F%A6\t=%F0%9F%A6\n\
query\t2\tBytes\tBytes:2\t=2\n\
form\t3\tMap:U16 Char\tMap:3 Unsigned:0 Char:1 Unsigned:1 Char:%C3%A9 Unsigned:5 Char:%C3%A9\t1=%C3%A9&0=1&5=%C3%A9\n\
query\t1\tU8\tUnsigned:1\t=1\n\
query\t1\tBytes\tBytes:%80%5B\t=%80%5B\n\
query\t3\tBytes\tBytes:%00\t=%00\n\
form\t3\tText\tText:%D9%A1\t=%D9%A1\n\
query\t1\tTuple:3 Unit Seq Bytes Bytes\tTuple:3 Unit Seq:0 Bytes:%F0%9F%A6\t2=%F0%9F%A6&0=&1=\n\
form\t3\tUnit\tUnit\t=\n\
form\t1\tBytes\tBytes:%D9%A1\t=%D9%A1\n\
form\t3\tUnit\tUnit\t=\n\
query\t2\tMap:Variants:%20:1:%5D Option Tuple:3 Seq Bytes U32 Option Char\tMap:2 UnitVariant:%5D Some Tuple:3 Seq:11 Bytes:-1 Bytes:true Bytes:%25 Bytes:%5B%5D Bytes:%20 Bytes:true Bytes:%22 Bytes:%25%2541 Bytes:a%5Bb%5D Bytes:4294967295 Bytes:1%20 Unsigned:5 Some Char:%C3%A9 UnitVariant:%20 Some Tuple:3 Seq:1 Bytes:%FF Unsigned:0 Some Char:%00\t%5D[0][7]=%25%2541&+[1]=0&%5D[0][8]=a%5Bb%5D&%5D[0][3]=%5B%5D&%5D[0][1]=true&%5D[0][2]=%25&%5D[0][9]=4294967295&%5D[0][6]=%22&%5D[0][5]=true&%5D[0][0]=-1&%5D[1]=5&%5D[0][10]=1+&+[2]=%00&%5D[0][4]=+&+[0][0]=%FF&%5D[2]=%C3%A9\tMap:2 UnitVariant:%20 Some Tuple:3 Seq:1 Bytes:%FF Unsigned:0 Some Char:%00 UnitVariant:%5D Some Tuple:3 Seq:11 Bytes:-1 Bytes:true Bytes:%25 Bytes:%5B%5D Bytes:%20 Bytes:true Bytes:%22 Bytes:%25%2541 Bytes:a%5Bb%5D Bytes:4294967295 Bytes:1%20 Unsigned:5 Some Char:%C3%A9\n\
form\t1\tBool\tBool:false\t=false\n\
query\t3\tMap:Variants:%26:%5Bx%5D Unit\tMap:2 UnitVariant:%5Bx%5D Unit UnitVariant:%26 Unit\t%26=&%5Bx%5D=\tMap:2 UnitVariant:%26 Unit UnitVariant:%5Bx%5D Unit\n\
query\t3\tUnit\tUnit\t=\n\
query\t5\tSeq I32\tSeq:3 Signed:2147483647 Signed:2147483647 Signed:2147483647\t1=2147483647&2=2147483647&0=2147483647\n\
query\t5\tText\tText:%2531\t=%2531\n\
query\t2\tChar\tChar:%5D\t=%5D\n\
form\t5\tNewtype Unit\tNewtype Unit\t=\n\
form\t1\tText\tText:true\t=true\n\
query\t1\tI16\tSigned:1\t=1\n\
query\t3\tNewtype Char\tNewtype Char:%2B\t=%2B\n\
form\t2\tOption Bool\tNone\t\n\
query\t3\tEnum:1 unit:%2531\tUnitVariant:%2531\t=%2531\n\
form\t5\tOption Seq Unit\tNone\t\n\
form\t3\tTuple:0\tTuple:0\t=\n\
query\t3\tUnit\tUnit\t=\n\
form\t3\tI32\tSigned:-2147483648\t=-2147483648\n\
query\t5\tUnit\tUnit\t=\n\
query\t3\tText\tText:0\t=0\n\
form\t2\tText\tText:%5B\t=%5B\n\
query\t1\tBool\tBool:false\t=false\n\
form\t2\tBytes\tBytes:1%2C2\t=1%2C2\n\
query\t2\tSeq I16\tSeq:1 Signed:32767\t0=32767\n\
form\t3\tUnit\tUnit\t=\n\
query\t2\tText\tText:%3D\t=%3D\n\
query\t3\tBytes\tBytes:%26\t=%26\n\
query\t1\tBytes\tBytes:%3D\t=%3D\n\
form\t1\tText\tText:true\t=true\n\
form\t1\tTuple:1 U16\tTuple:1 Unsigned:65535\t0=65535\n\
query\t3\tChar\tChar:%20\t=+\n\
form\t5\tI16\tSigned:32767\t=32767\n\
query\t3\tSeq Unit\tSeq:3 Unit Unit Unit\t2=&1=&0=\n\
form\t5\tStruct:%2B1:%255B?:%25 Option Unit Bytes Seq Bool\tStruct:%2B1:%255B:%25 None Bytes:10 Seq:0\t%25=&%2B1&%255B=10\n\
form\t2\tI32\tSigned:-2147483648\t=-2147483648\n\
form\t5\tText\tText:%5B\t=%5B\n\
form\t5\tBytes\tBytes:\t=\n\
query\t5\tOption I64\tSome Signed:4294967295\t=4294967295\n\
form\t1\tUnit\tUnit\t=\n\
query\t2\tTuple:0\tTuple:0\t=\n\
query\t2\tOption Bytes\tNone\t\n\
query\t1\tBytes\tBytes:5B\t=5B\n\
query\t5\tChar\tChar:a\t=a\n\
form\t3\tSeq Bytes\tSeq:0\t=\n\
query\t5\tText\tText:%25%2541\t=%25%2541\n\
query\t2\tMap:Text Text\tMap:0\t=\n\
form\t5\tTuple:3 Bytes Char Unit\tTuple:3 Bytes:%5B%5D Char:%C3%A9 Unit\t2=&1=%C3%A9&0=%5B%5D\n\
query\t5\tBytes\tBytes:1%20\t=1+\n\
query\t5\tUnit\tUnit\t=\n\
query\t5\tU64\tUnsigned:0\t=0\n\
query\t2\tOption Newtype Bool\tSome Newtype Bool:true\t=true\n\
form\t5\tMap:Text Char\tMap:0\t=\n\
query\t2\tUnit\tUnit\t=\n\
query\t3\tBool\tBool:true\t=true\n\
form\t3\tNewtype Bytes\tNewtype Bytes:%3D\t=%3D\n\
form\t1\tMap:I16 Newtype Newtype Char\tMap:1 Signed:32767 Newtype Newtype Char:%20\t32767=%20\n\
form\t2\tSeq Seq Tuple:3 I64 I8 Char\tSeq:0\t=\n\
form\t2\tChar\tChar:1\t=1\n\
query\t2\tBool\tBool:false\t=false\n\
query\t3\tMap:U32 Enum:3 tuple:%25:1 Bytes unit:%26 unit:%5D\tMap:0\t=\n\
query\t1\tText\tText:x%3Dy%26z\t=x%3Dy%26z\n\
form\t2\tChar\tChar:a\t=a\n\
query\t3\tSeq I64\tSeq:3 Signed:-1 Signed:4294967295 Signed:1\t1=4294967295&0=-1&2=1\n\
query\t2\tMap:Variants::%5B:%7F:a%5Bb%5D Text\tMap:0\t=\n\
query\t1\tBytes\tBytes:true\t=true\n\
query\t1\tTuple:0\tTuple:0\t=\n\
form\t5\tText\tText:%5B%5D\t=%5B%5D\n\
form\t5\tBytes\tBytes:%C3%A9\t=%C3%A9\n\
form\t5\tBytes\tBytes:4294967296\t=4294967296\n\
form\t2\tEnum:2 unit:%26 tuple:%2B1:2 Map:I16 Bytes Tuple:2 U16 Bool\tUnitVariant:%26\t=%26\n\
form\t1\tOption Struct: Seq Bytes\tNone\t\n\
form\t1\tUnit\tUnit\t=\n\
query\t5\tBool\tBool:true\t=true\n\
query\t1\tBool\tBool:false\t=false\n\
form\t5\tU16\tUnsigned:65535\t=65535\n\
form\t1\tStruct:4294967296?:2:4294967295 Text Text Bool\tStruct:2:4294967295 Text:1%2C2 Bool:true\t4294967295=true&2=1%2C2\n\
form\t2\tUnit\tUnit\t=\n\
query\t3\tBool\tBool:false\t=false\n\
query\t3\tEnum:1 unit:%7F\tUnitVariant:%7F\t=%7F\n\
form\t1\tText\tText:4294967295\t=4294967295\n\
query\t5\tOption I8\tSome Signed:-128\t=-128\n\
form\t3\tText\tText:01\t=01\n\
query\t5\tBytes\tBytes:%255B\t=%255B\n\
form\t3\tBool\tBool:false\t=false\n\
query\t5\tNewtype Text\tNewtype Text:%2B1\t=%2B1\n\
form\t5\tOption Tuple:2 Seq Text Enum:3 struct:01:%255B Seq Bytes newtype:4294967296 Enum:2 unit:%2B newtype:%D9%A1 Unit tuple:%26:0\tNone\t\n\
query\t3\tSeq Tuple:2 Option Text Text\tSeq:2 Tuple:2 Some Text:b Text:a Tuple:2 Some Text: Text:%22\t0[0]=b&1[1]=%22&1[0]=&0[1]=a\n\
query\t2\tU32\tUnsigned:4294967295\t=4294967295\n\
query\t1\tTuple:0\tTuple:0\t=\n\
query\t1\tText\tText:%C3%A9\t=%C3%A9\n\
query\t1\tUnit\tUnit\t=\n\
form\t3\tBytes\tBytes:a%5Bb%5D\t=a%5Bb%5D\n\
form\t1\tBytes\tBytes:%25%FF\t=%25%FF\n\
query\t1\tText\tText:1%20\t=1+\n\
form\t5\tU16\tUnsigned:1\t=1\n\
query\t1\tBytes\tBytes:5B\t=5B\n\
form\t2\tOption Char\tSome Char:%5D\t=%5D\n\
query\t1\tText\tText:%5B\t=%5B\n\
form\t3\tI8\tSigned:-128\t=-128\n\
query\t1\tUnit\tUnit\t=\n\
query\t5\tNewtype Option U32\tNewtype Some Unsigned:4294967295\t=4294967295\n\
form\t1\tBool\tBool:true\t=true\n\
query\t2\tOption Text\tNone\t\n\
form\t2\tMap:Text Unit\tMap:2 Text:%25 Unit Text:-1 Unit\t%25=&-1=\n\
query\t2\tOption Char\tSome Char:%26\t=%26\n\
form\t3\tSeq Bytes\tSeq:11 Bytes:%5B Bytes:%FF Bytes:%F0%9F%A6 Bytes:false Bytes:b Bytes:%26 Bytes:5B Bytes:true Bytes:00 Bytes:%22 Bytes:%5Bx%5D\t1=%FF&0=%5B&4=b&2=%F0%9F%A6&3=false&8=00&7=true&5=%26&9=%22&6=5B&10=%5Bx%5D\n\
query\t5\tI32\tSigned:-2147483648\t=-2147483648\n\
query\t5\tU64\tUnsigned:1\t=1\n\
query\t5\tBytes\tBytes:00\t=00\n\
query\t1\tBool\tBool:true\t=true\n\
query\t2\tU8\tUnsigned:0\t=0\n\
form\t2\tSeq Char\tSeq:3 Char:%00 Char:1 Char:0\t1=1&2=0&0=%00\n\
query\t3\tStruct:0:%255B:%20 Text Text Bool\tStruct:0:%255B:%20 Text:00 Text:%3D Bool:true\t%255B=%3D&+=true&0=00\n\
form\t3\tText\tText:%2531\t=%2531\n\
form\t1\tChar\tChar:0\t=0\n\
form\t5\tOption Char\tSome Char:-\t=-\n\
form\t1\tBytes\tBytes:%5B\t=%5B\n\
form\t3\tNewtype Newtype Unit\tNewtype Newtype Unit\t=\n\
query\t3\tChar\tChar:-\t=-\n\
query\t5\tOption Char\tSome Char:%F0%9F%A6%80\t=%F0%9F%A6%80\n\
form\t2\tSeq Unit\tSeq:3 Unit Unit Unit\t2=&0=&1=\n\
form\t5\tBytes\tBytes:%22\t=%22\n\
form\t3\tSeq Unit\tSeq:0\t=\n\
query\t2\tU8\tUnsigned:0\t=0\n\
form\t3\tSeq Char\tSeq:1 Char:%3D\t0=%3D\n\
query\t1\tTuple:2 Enum:2 newtype:%7F Text newtype:b Unit Option Bytes\tTuple:2 NewtypeVariant:b Unit Some Bytes:2\t0[b]=&1=2\n\
form\t3\tMap:U16 Bool\tMap:1 Unsigned:65535 Bool:false\t65535=false\n\
form\t5\tTuple:1 Unit\tTuple:1 Unit\t0=\n\
query\t1\tBytes\tBytes:1\t=1\n\
query\t3\tSeq Char\tSeq:11 Char:%3D Char:%26 Char:%F0%9F%A6%80 Char:%2B Char:%25 Char:- Char:%25 Char:%20 Char:a Char:%5B Char:0\t10=0&5=-&2=%F0%9F%A6%80&7=+&6=%25&0=%3D&3=%2B&8=a&9=%5B&4=%25&1=%26\n\
query\t2\tBytes\tBytes:%2B1\t=%2B1\n\
form\t3\tOption Map:I64 Option Char\tNone\t\n\
query\t3\tText\tText:04294967296\t=04294967296\n\
form\t5\tSeq Option Seq U64\tSeq:2 None None\t1&0\n\
form\t2\tOption Char\tNone\t\n\
form\t2\tTuple:0\tTuple:0\t=\n\
query\t2\tNewtype Map:I64 Text\tNewtype Map:2 Signed:4294967295 Text:%5B%5D Signed:1 Text:\t1=&4294967295=%5B%5D\tNewtype Map:2 Signed:1 Text: Signed:4294967295 Text:%5B%5D\n\
form\t5\tOption Char\tSome Char:-\t=-\n\
query\t1\tText\tText:false\t=false\n\
query\t1\tStruct:%255B:? Bool Seq Struct:%255B:%2B? Seq Bytes Bytes\tStruct:%255B Bool:false\t%255B=false\n\
form\t3\tNewtype Unit\tNewtype Unit\t=\n\
form\t2\tTuple:0\tTuple:0\t=\n\
query\t5\tSeq Bytes\tSeq:2 Bytes:null Bytes:%80%5B\t0=null&1=%80%5B\n\
form\t5\tEnum:2 unit:%5Bx%5D unit:%C3%A9\tUnitVariant:%5Bx%5D\t=%5Bx%5D\n\
query\t3\tTuple:3 Text Tuple:0 Char\tTuple:3 Text:%00 Tuple:0 Char:-\t2=-&0=%00&1=\n\
form\t3\tSeq U16\tSeq:1 Unsigned:0\t0=0\n\
query\t2\tEnum:3 unit:%22 struct:%3D struct:-1:1 Bytes\tUnitVariant:%22\t=%22\n\
form\t2\tMap:Char Tuple:2 Bytes Char\tMap:1 Char:- Tuple:2 Bytes:2 Char:%5D\t-%5B0%5D=2&-%5B1%5D=%5D\n\
query\t2\tMap:Text Option Char\tMap:0\t=\n\
query\t5\tTuple:0\tTuple:0\t=\n\
form\t2\tUnit\tUnit\t=\n\
form\t1\tBytes\tBytes:5B\t=5B\n\
query\t5\tBytes\tBytes:a\t=a\n\
query\t1\tSeq U16\tSeq:1 Unsigned:5\t0=5\n\
query\t3\tBytes\tBytes:00\t=00\n\
form\t1\tText\tText:01\t=01\n\
form\t5\tBytes\tBytes:%26\t=%26\n\
query\t1\tBytes\tBytes:%5Bx%5D\t=%5Bx%5D\n\
form\t5\tNewtype Unit\tNewtype Unit\t=\n\
form\t1\tNewtype Unit\tNewtype Unit\t=\n\
form\t1\tOption I64\tSome Signed:9223372036854775807\t=9223372036854775807\n\
query\t2\tU64\tUnsigned:4294967295\t=4294967295\n\
form\t5\tBool\tBool:true\t=true\n\
query\t2\tUnit\tUnit\t=\n\
query\t2\tBytes\tBytes:a\t=a\n\
query\t3\tSeq Struct:%7F:-1 Bytes Bytes\tSeq:0\t=\n\
query\t2\tSeq Struct:%7F Tuple:2 Unit Bytes\tSeq:3 Struct:%7F Tuple:2 Unit Bytes:04294967296 Struct:%7F Tuple:2 Unit Bytes:%C3%A9 Struct:%7F Tuple:2 Unit Bytes:%00\t0[%7F][1]=04294967296&1[%7F][1]=%C3%A9&1[%7F][0]=&0[%7F][0]=&2[%7F][0]=&2[%7F][1]=%00\n\
form\t5\tText\tText:%D9%A1\t=%D9%A1\n\
form\t1\tBool\tBool:false\t=false\n\
form\t5\tBytes\tBytes:04294967296\t=04294967296\n\
query\t1\tNewtype Newtype Option Unit\tNewtype Newtype Some Unit\t=\n\
query\t2\tSeq Map:U64 Option Struct:%7F?:5B Char Unit\tSeq:1 Map:0\t0=\n\
form\t3\tU32\tUnsigned:4294967295\t=4294967295\n\
query\t1\tOption Option U16\tNone\t\n\
query\t3\tSeq Unit\tSeq:0\t=\n\
query\t2\tText\tText:x%3Dy%26z\t=x%3Dy%26z\n\
query\t1\tBool\tBool:true\t=true\n\
form\t1\tOption Bytes\tNone\t\n\
query\t3\tSeq Unit\tSeq:2 Unit Unit\t0=&1=\n\
form\t3\tI64\tSigned:-9223372036854775808\t=-9223372036854775808\n\
form\t3\tText\tText:%3D\t=%3D\n\
form\t1\tTuple:2 Tuple:2 U32 Unit Tuple:2 Unit Bool\tTuple:2 Tuple:2 Unsigned:0 Unit Tuple:2 Unit Bool:false\t1%5B1%5D=false&0%5B0%5D=0&1%5B0%5D=&0%5B1%5D=\n\
query\t2\tStruct:%C3%A9?:10?:2 U8 Unit Char\tStruct:%C3%A9:2 Unsigned:0 Char:1\t2=1&%C3%A9=0\n\
form\t5\tTuple:0\tTuple:0\t=\n\
query\t3\tEnum:1 tuple:%C3%A9:2 Bool U32\tTupleVariant:%C3%A9:2 Bool:true Unsigned:0\t%C3%A9[1]=0&%C3%A9[0]=true\n\
query\t2\tOption Bool\tNone\t\n\
query\t3\tTuple:1 U32\tTuple:1 Unsigned:5\t0=5\n\
query\t5\tTuple:3 Text Bool Bytes\tTuple:3 Text:false Bool:false Bytes:%2B\t0=false&2=%2B&1=false\n\
form\t5\tText\tText:%2531\t=%2531\n\
form\t5\tChar\tChar:%C3%A9\t=%C3%A9\n\
query\t1\tMap:U32 Tuple:0\tMap:1 Unsigned:0 Tuple:0\t0=\n\
query\t1\tBool\tBool:false\t=false\n\
form\t3\tBytes\tBytes:%80%5B\t=%80%5B\n\
query\t3\tTuple:1 Unit\tTuple:1 Unit\t0=\n\
form\t3\tStruct:%2531? Bool\tStruct:%2531 Bool:true\t%2531=true\n\
form\t3\tNewtype Text\tNewtype Text:2\t=2\n\
query\t2\tChar\tChar:%3D\t=%3D\n\
query\t2\tU8\tUnsigned:5\t=5\n\
form\t3\tBool\tBool:true\t=true\n\
query\t1\tSeq Text\tSeq:0\t=\n\
query\t5\tSeq Tuple:0\tSeq:2 Tuple:0 Tuple:0\t0=&1=\n\
form\t2\tBytes\tBytes:%22\t=%22\n\
form\t2\tSeq Unit\tSeq:3 Unit Unit Unit\t0=&1=&2=\n\
query\t2\tUnit\tUnit\t=\n\
form\t5\tOption Char\tSome Char:%25\t=%25\n\
query\t1\tBytes\tBytes:null\t=null\n\
form\t2\tSeq Char\tSeq:11 Char:%3D Char:%25 Char:%C3%A9 Char:a Char:%00 Char:%00 Char:a Char:%00 Char:%20 Char:%C3%A9 Char:%F0%9F%A6%80\t8=%20&10=%F0%9F%A6%80&7=%00&0=%3D&9=%C3%A9&2=%C3%A9&3=a&4=%00&6=a&5=%00&1=%25\n\
query\t1\tU8\tUnsigned:5\t=5\n\
query\t1\tBytes\tBytes:10\t=10\n\
form\t5\tChar\tChar:a\t=a\n\
form\t2\tI16\tSigned:1\t=1\n\
query\t5\tTuple:1 Seq Struct:4294967295:%2B Char Char\tTuple:1 Seq:2 Struct:4294967295:%2B Char:a Char:%C3%A9 Struct:4294967295:%2B Char:%26 Char:0\t0[1][%2B]=0&0[1][4294967295]=%26&0[0][%2B]=%C3%A9&0[0][4294967295]=a\n\
form\t2\tStruct:%C3%A9:%2B1:%20 I64 Bytes Unit\tStruct:%C3%A9:%2B1:%20 Signed:0 Bytes:%FF Unit\t%2B1=%FF&%C3%A9=0&%20=\n\
form\t1\tI16\tSigned:32767\t=32767\n\
form\t2\tOption Newtype Bool\tSome Newtype Bool:true\t=true\n\
query\t3\tBytes\tBytes:a%5Bb%5D\t=a%5Bb%5D\n\
form\t2\tNewtype Struct:1%20 Bytes\tNewtype Struct:1%20 Bytes:%C3%A9\t1%20=%C3%A9\n\
form\t1\tEnum:1 unit:1\tUnitVariant:1\t=1\n\
form\t5\tEnum:2 tuple:01:0 newtype:%3D Bool\tNewtypeVariant:%3D Bool:false\t%3D=false\n\
form\t1\tSeq Unit\tSeq:1 Unit\t0=\n\
query\t2\tOption Bool\tSome Bool:false\t=false\n\
form\t5\tUnit\tUnit\t=\n\
form\t1\tText\tText:%5Bx%5D\t=%5Bx%5D\n\
form\t2\tText\tText:%25\t=%25";
